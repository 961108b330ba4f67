// The lines of the configuration and of the table of actions.

use crate::{Case, Piece, Refused};

/// Keys and values that are wrong are told behind the first line, by their numbers among these lines.
const WRONG_VALUES: Piece = (
    "login-recording 1\n\
             conf [Login]\n\
             conf SessionsMax=1\n\
             conf Foo=1\n\
             conf NAutoVTs=64\n\
             conf InhibitDelayMaxSec=1min 30s\n\
             go\n\
             end\n",
    "login-transcript 1\n\
             diag 3 3\n\
             diag 4 4\n\
             end 0\n",
);

/// Lines in front of a section, in another one and of another form, between other lines of the preamble.
const WRONG_LINES: Piece = (
    "login-recording 1\n\
             conf x\n\
             user 1000 1000 alice\n\
             conf\n\
             conf [Other]\n\
             conf x\n\
             conf [Login]\n\
             guid 00000000000000000000000000000000\n\
             conf Foo\\\n\
             action chvt no no no\n\
             conf \n\
             conf  x\n\
             go\n\
             end\n",
    "login-transcript 1\n\
             diag 1 1\n\
             diag 3 2\n\
             diag 6 5\n\
             diag 8 5\n\
             end 0\n",
);

/// Lines that go on behind a backslash.
const CONTINUED: Piece = (
    "login-recording 1\n\
             conf [Login]\n\
             conf NAutoVTs=\\\n\
             conf \\\n\
             conf 64\n\
             conf Foo=\n\
             go\n\
             end\n",
    "login-transcript 1\n\
             diag 2 4\n\
             diag 5 3\n\
             end 0\n",
);

/// The file of a distribution (Debian's systemd 252), in which all lines are comments.
const COMMENTED: Piece = (
    "login-recording 1\n\
     conf #  This file is part of systemd.\n\
     conf #\n\
     conf #  systemd is free software; you can redistribute it and/or modify it under the\n\
     conf #  terms of the GNU Lesser General Public License as published by the Free\n\
     conf #  Software Foundation; either version 2.1 of the License, or (at your option)\n\
     conf #  any later version.\n\
     conf #\n\
     conf # Entries in this file show the compile time defaults. Local configuration\n\
     conf # should be created by either modifying this file, or by creating \"drop-ins\" in\n\
     conf # the logind.conf.d/ subdirectory. The latter is generally recommended.\n\
     conf # Defaults can be restored by simply deleting this file and all drop-ins.\n\
     conf #\n\
     conf # Use 'systemd-analyze cat-config systemd/logind.conf' to display the full config.\n\
     conf #\n\
     conf # See logind.conf(5) for details.\n\
     conf\n\
     conf [Login]\n\
     conf #NAutoVTs=6\n\
     conf #ReserveVT=6\n\
     conf #KillUserProcesses=no\n\
     conf #KillOnlyUsers=\n\
     conf #KillExcludeUsers=root\n\
     conf #InhibitDelayMaxSec=5\n\
     conf #UserStopDelaySec=10\n\
     conf #HandlePowerKey=poweroff\n\
     conf #HandlePowerKeyLongPress=ignore\n\
     conf #HandleRebootKey=reboot\n\
     conf #HandleRebootKeyLongPress=poweroff\n\
     conf #HandleSuspendKey=suspend\n\
     conf #HandleSuspendKeyLongPress=hibernate\n\
     conf #HandleHibernateKey=hibernate\n\
     conf #HandleHibernateKeyLongPress=ignore\n\
     conf #HandleLidSwitch=suspend\n\
     conf #HandleLidSwitchExternalPower=suspend\n\
     conf #HandleLidSwitchDocked=ignore\n\
     conf #PowerKeyIgnoreInhibited=no\n\
     conf #SuspendKeyIgnoreInhibited=no\n\
     conf #HibernateKeyIgnoreInhibited=no\n\
     conf #LidSwitchIgnoreInhibited=yes\n\
     conf #RebootKeyIgnoreInhibited=no\n\
     conf #HoldoffTimeoutSec=30s\n\
     conf #IdleAction=ignore\n\
     conf #IdleActionSec=30min\n\
     conf #RuntimeDirectorySize=10%\n\
     conf #RuntimeDirectoryInodesMax=\n\
     conf #RemoveIPC=yes\n\
     conf #InhibitorsMax=8192\n\
     conf #SessionsMax=8192\n\
     conf #StopIdleSessionSec=infinity\n\
     go\n\
     end\n",
    "login-transcript 1\nend 0\n",
);

/// The same with each key assigned the default that stands in the comment.
const ASSIGNED: Piece = (
    "login-recording 1\n\
     conf #  This file is part of systemd.\n\
     conf #\n\
     conf #  systemd is free software; you can redistribute it and/or modify it under the\n\
     conf #  terms of the GNU Lesser General Public License as published by the Free\n\
     conf #  Software Foundation; either version 2.1 of the License, or (at your option)\n\
     conf #  any later version.\n\
     conf #\n\
     conf # Entries in this file show the compile time defaults. Local configuration\n\
     conf # should be created by either modifying this file, or by creating \"drop-ins\" in\n\
     conf # the logind.conf.d/ subdirectory. The latter is generally recommended.\n\
     conf # Defaults can be restored by simply deleting this file and all drop-ins.\n\
     conf #\n\
     conf # Use 'systemd-analyze cat-config systemd/logind.conf' to display the full config.\n\
     conf #\n\
     conf # See logind.conf(5) for details.\n\
     conf\n\
     conf [Login]\n\
     conf NAutoVTs=6\n\
     conf ReserveVT=6\n\
     conf KillUserProcesses=no\n\
     conf KillOnlyUsers=\n\
     conf KillExcludeUsers=root\n\
     conf InhibitDelayMaxSec=5\n\
     conf UserStopDelaySec=10\n\
     conf HandlePowerKey=poweroff\n\
     conf HandlePowerKeyLongPress=ignore\n\
     conf HandleRebootKey=reboot\n\
     conf HandleRebootKeyLongPress=poweroff\n\
     conf HandleSuspendKey=suspend\n\
     conf HandleSuspendKeyLongPress=hibernate\n\
     conf HandleHibernateKey=hibernate\n\
     conf HandleHibernateKeyLongPress=ignore\n\
     conf HandleLidSwitch=suspend\n\
     conf HandleLidSwitchExternalPower=suspend\n\
     conf HandleLidSwitchDocked=ignore\n\
     conf PowerKeyIgnoreInhibited=no\n\
     conf SuspendKeyIgnoreInhibited=no\n\
     conf HibernateKeyIgnoreInhibited=no\n\
     conf LidSwitchIgnoreInhibited=yes\n\
     conf RebootKeyIgnoreInhibited=no\n\
     conf HoldoffTimeoutSec=30s\n\
     conf IdleAction=ignore\n\
     conf IdleActionSec=30min\n\
     conf RuntimeDirectorySize=10%\n\
     conf RuntimeDirectoryInodesMax=\n\
     conf RemoveIPC=yes\n\
     conf InhibitorsMax=8192\n\
     conf SessionsMax=8192\n\
     conf StopIdleSessionSec=infinity\n\
     go\n\
     end\n",
    "login-transcript 1\nend 0\n",
);

/// As many sessions as are configured, and the clock.
const ONE_SESSION: Piece = (
    "login-recording 1\n\
         user 1000 1000 alice\n\
         user 1001 1001 bob\n\
         conf [Login]\n\
         conf SessionsMax=1\n\
         go\n\
         connect 1 0\n\
         call 1 1 create 1000 0 login tty user % seat0 1 tty1 % false % %\n\
         call 1 2 create 1001 0 login tty user % seat0 2 tty2 % false % %\n\
         tick 5\n\
         tick 5\n\
         tick 4\n\
         tick 18446744073709551615\n\
         end\n",
    "login-transcript 1\n\
         1 connect 1 0\n \
         granted\n \
         set conn 1 0\n\
         2 call 1 1 create 1000 0 login tty user % seat0 1 tty1 % false % %\n \
         granted c1 /org/freedesktop/login1/session/c1 /run/user/1000 1 1000 seat0 1 false\n \
         set user 1000 known\n \
         all user-new 1000\n \
         set owner 1 fifo 1 c1\n \
         set sess c1 open 1000 seat0 1 tty user\n \
         all session-new c1\n \
         all active seat0 - c1\n\
         3 call 1 2 create 1001 0 login tty user % seat0 2 tty2 % false % %\n \
         denied P26 limit SessionsMax 1\n\
         4 tick 5\n \
         granted\n \
         set now 5\n\
         5 tick 5\n \
         granted\n\
         6 tick 4\n \
         denied P33 clock-backwards 5\n\
         7 tick 18446744073709551615\n \
         granted\n \
         set now 18446744073709551615\n\
         end 7\n",
);

/// A line of an action: what power needs then.
const ACTION_SET: Piece = (
    "login-recording 1\n\
             user 1000 1000 alice\n\
             action power-off no no no\n\
             go\n\
             connect 1 0\n\
             connect 2 1000\n\
             call 1 1 create 1000 2 login tty user % seat0 1 tty1 % false % %\n\
             call 2 1 power poweroff\n\
             call 2 2 can poweroff\n\
             end\n",
    "login-transcript 1\n\
             1 connect 1 0\n \
             granted\n \
             set conn 1 0\n\
             2 connect 2 1000\n \
             granted\n \
             set conn 2 1000\n\
             3 call 1 1 create 1000 2 login tty user % seat0 1 tty1 % false % %\n \
             granted c1 /org/freedesktop/login1/session/c1 /run/user/1000 1 1000 seat0 1 false\n \
             set user 1000 known\n \
             all user-new 1000\n \
             set owner 1 fifo 1 c1\n \
             set sess c1 open 1000 seat0 1 tty user\n \
             all session-new c1\n \
             all active seat0 - c1\n\
             4 call 2 1 power poweroff\n \
             denied P11 action-refused power-off\n\
             5 call 2 2 can poweroff\n \
             granted no\n\
             end 5\n",
);

/// The same without it.
const ACTION_NOT_SET: Piece = (
    "login-recording 1\n\
             user 1000 1000 alice\n\
             user 1001 1001 bob\n\
             go\n\
             connect 1 0\n\
             connect 2 1000\n\
             call 1 1 create 1000 2 login tty user % seat0 1 tty1 % false % %\n\
             connect 3 1001\n\
             call 3 1 power poweroff\n\
             end\n",
    "login-transcript 1\n\
             1 connect 1 0\n \
             granted\n \
             set conn 1 0\n\
             2 connect 2 1000\n \
             granted\n \
             set conn 2 1000\n\
             3 call 1 1 create 1000 2 login tty user % seat0 1 tty1 % false % %\n \
             granted c1 /org/freedesktop/login1/session/c1 /run/user/1000 1 1000 seat0 1 false\n \
             set user 1000 known\n \
             all user-new 1000\n \
             set owner 1 fifo 1 c1\n \
             set sess c1 open 1000 seat0 1 tty user\n \
             all session-new c1\n \
             all active seat0 - c1\n\
             4 connect 3 1001\n \
             granted\n \
             set conn 3 1001\n\
             5 call 3 1 power poweroff\n \
             denied P12 action-challenge power-off-multiple-sessions\n\
             end 5\n",
);

/// Each with what it shows of configurations.
pub const CASES: [Case; 8] = [
    Case {
        name: "wrong keys and values are told",
        pieces: &[WRONG_VALUES],
    },
    Case {
        name: "wrong lines are told",
        pieces: &[WRONG_LINES],
    },
    Case {
        name: "continued lines are told",
        pieces: &[CONTINUED],
    },
    Case {
        name: "the distributed file is right",
        pieces: &[COMMENTED],
    },
    Case {
        name: "the distributed file with its defaults assigned is right",
        pieces: &[ASSIGNED],
    },
    Case {
        name: "sessions are as many as configured",
        pieces: &[ONE_SESSION],
    },
    Case {
        name: "an action is asked as the table says",
        pieces: &[ACTION_SET],
    },
    Case {
        name: "an action is asked as by default",
        pieces: &[ACTION_NOT_SET],
    },
];

/// Lines with a fault of their own.
const OWN_FAULTS: [(&[u8], &str); 5] = [
    (b"confx\n", "unknown-word"),
    (b"action power-off no\n", "missing-word"),
    (b"action power-off no no no no\n", "extra-word"),
    (b"conf [Login]", "ended"),
    (b"action chvt no no no", "ended"),
];

/// Tables that are refused at their first line, which is the second of the recording.
const FIRST_AT_FAULT: [(&[u8], &str); 6] = [
    (b"action power-off no no maybe\ngo\nend\n", "bad-action"),
    (b"action foo yes yes yes\ngo\nend\n", "bad-action"),
    (b"action chvt  no no\ngo\n", "bad-action"),
    (b"action    \ngo\n", "bad-action"),
    (
        b"action foo no no no\naction bar no no no\ngo\n",
        "bad-action",
    ),
    (b"action foo no no no\ngo\nfrob\n", "bad-action"),
];

/// Tables that are refused behind a first line.
const LATER_AT_FAULT: [(&[u8], &str); 2] = [
    (
        b"conf [Login]\nuser 1000 1000 alice\naction power-off no no no\ngo\nend\n",
        "bad-action",
    ),
    (
        b"conf\nconf\naction halt no no\xff no\naction x no no no\ngo\n",
        "bad-action",
    ),
];

/// Lines in front of `go` that are refused before its table is read.
const REFUSED_BEFORE: [(&[u8], &str); 3] = [
    (b"user 0 0 root\n", "bad-number"),
    (b"go x\n", "extra-word"),
    (b"connect 1 0\n", "wrong-place"),
];

/// Lines that may not stand behind `go`.
const BEHIND: [(&[u8], &str); 2] = [
    (b"conf\n", "wrong-place"),
    (b"action chvt no no no\n", "wrong-place"),
];

/// Each with the lines that are refused.
pub const REFUSED: [Refused; 5] = [
    Refused {
        name: "lines with a fault of their own",
        front: b"login-recording 1\n",
        lines: &OWN_FAULTS,
        number: 2,
        transcript: b"",
    },
    Refused {
        name: "lines behind go",
        front: b"login-recording 1\nconf x\ngo\n",
        lines: &BEHIND,
        number: 4,
        transcript: b"login-transcript 1\ndiag 1 1\n",
    },
    Refused {
        name: "the first line of a table",
        front: b"login-recording 1\n",
        lines: &FIRST_AT_FAULT,
        number: 2,
        transcript: b"",
    },
    Refused {
        name: "a later line of a table",
        front: b"login-recording 1\naction power-off no no no\n",
        lines: &LATER_AT_FAULT,
        number: 5,
        transcript: b"",
    },
    Refused {
        name: "lines before the table is read",
        front: b"login-recording 1\naction foo no no no\n",
        lines: &REFUSED_BEFORE,
        number: 3,
        transcript: b"",
    },
];
