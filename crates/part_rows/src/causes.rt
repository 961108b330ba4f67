// The causes of lines. Those that stand in a whole recording in `login_rows` are not here too.

use login_base::NoMemory;
use recording::{LineFault, read_line};
use std::alloc::Global;
use std::test::Fail;

/// Lines, which slashes part, and the cause with which each of them is refused.
const LINES: [(Option<LineFault>, &str); 7] = [
    (
        Some(LineFault::UnknownWord),
        " go/GO/call 1 1 can Poweroff/call 1 1 power %/call 1 1 power power-off/key reboot/key lid-switch/\
         dock 1/call 1 1 idle c1 yes/add 1 1 usb seat0/\
         send 1 1 schedule poweroff 1/call 1 1 control c1 /call 1 1 control c1 1/\
         call 1 1 linger 1 yes",
    ),
    (
        Some(LineFault::BadNumber),
        "connect 1 01/connect 0 1/connect  1/connect +1 1/connect 4294967296 1/disconnect x/\
         user 0 0 x/user 1 -1 x/input 1 1 65536 0 0/input 1 1 0 65536 0/input 1 1 0 0 2147483648/\
         input 1 1 0 0 -2147483649/input 1 1 0 0 -0/input 1 1 0 0 +1/call 0 1 ping/call 1 0 ping/\
         call 1 1 kill c1 all 01/call 1 1 get-user c1/link 0 1/hangup 0/in 0 00/call 1 1 create x/\
         vtkey /vtkey 01/call 1 1 switch seat0 -1/user 01000 1000 a/user +1 1 a/\
         user 4294967296 0 a/connect  1 1000/link 01 0/link 1 -1/link 1 4294967296/link x/\
         in 0 0/in 4294967296/in  00/hangup 01/hangup /hangup x y",
    ),
    (
        Some(LineFault::BadHex),
        "user 1 1 /user 1 1 %41/user 1 1 %2F/user 1 1 %C3%A9/user 1 1 %c3/user 1 1 %00/\
         user 1 1 %4/user 1 1 %ff/user 1 1 é/guid 0123/\
         in 1 /in 1 0/in 1 000/in 1 0g/in 1 0A/in 1 FF/in 1 %/in 1 0x00/in 1  00/in 1 0 00/\
         guid 0123456789ABCDEF0123456789abcdef/call 1 1 get-session %zz/\
         call 1 1 inhibit a %ff c d/\
         call 1 1 create 1 1 login tty user % seat0 1 tty1 % false % %00",
    ),
    (
        Some(LineFault::MissingWord),
        "user 1/user 1 1/action/action a b c/connect/connect 1/call/call 1/send 1 1/add 1 1/\
         add 1 1 drm/input 1 1 0 0/key/dock/link/link 1/in/in 1/hangup/\
         call 1 1 create 1 1 login tty user % seat0 1 tty1 % false %/call 1 1 take c1 1/\
         call 1 1 kill c1 all/call 1 1 get-user/\
         call 1 1 power/call 1 1 can/call 1 1 inhibit sleep a b",
    ),
    (
        Some(LineFault::ExtraWord),
        "go x/end end/user 1 1 a b/action a b c d e/connect 1 1 1/call 1 1 ping 1/\
         call 1 1 uncontrol c1 c2/exit c1 /tick 1 1/call 1 1 list-users 1/\
         key lid closed/dock true 1/jobdone poweroff/call 1 1 list-inhibitors 1/\
         link 1 0 x/in 1 00 ff/in 1 00 /hangup 1 1/\
         call 1 1 power halt false/call 1 1 inhibit sleep a b delay now/\
         call 3 1 create 1000 1 login tty user % seat0 1 tty1 % false % % %/go\n/go\ngo/conf a\nb",
    ),
    (
        Some(LineFault::BadName),
        "add 1 1 drm desk/add 1 1 evdev %zz/add 1 1 drm /add 1 1 drm sea",
    ),
    (
        None,
        "login-recording 1/guid 0123456789abcdef0123456789abcdef/user 4294967295 0 %/\
         conf/conf /conf  [Login] x/action a b c d/action    /\
         connect 3 4294967295/disconnect 1/vtkey 4294967295/exit c1/exit %/\
         tick 18446744073709551615/stop/add 226 0 drm seat0/add 13 4294967295 evdev seat-x/\
         remove 1 1/input 13 64 1 30 -2147483648/input 0 0 65535 65535 2147483647/\
         key power/key suspend/key hibernate/key lid/dock true/dock false/jobdone/\
         link 1 0/link 4294967295 4294967295/in 1 00/in 4294967295 0123456789abcdef/hangup 1",
    ),
];

/// Calls that have none.
const CALLS: &str =
    "create 1000 1 login x11 greeter % seat-x 64 tty1 :0 true bob far/get-session c1/\
     get-user 1000/get-seat seat0/list-sessions/list-users/list-seats/activate c1/\
     activate-on c1 seat0/lock c1/unlock c1/lock-all/unlock-all/kill c1 all -1/\
     kill-user 1000 9/terminate c1/terminate-user 1000/terminate-seat seat0/linger 1000 true/\
     idle c1 true/locked c1 false/control c1 true/uncontrol c1/switch seat0 2/next seat0/\
     prev seat0/take c1 226 4294967295/release c1 226 0/paused c1 226 0/\
     read 4294967295/set-mode 1 4294967295/\
     close 1/no-object/no-method/bad-args/nothing/list-inhibitors/power hybrid-sleep/\
     power suspend-then-hibernate/can poweroff/can reboot/inhibit sleep a b delay/\
     inhibit % % % %/inhibit idle:desk a%20b c%0a weak/get x % a/get-all x %/set x % a/ping/\
     machine-id/hello/owner x/owner %/add-match %/remove-match a%20b";

/// A front of a line, how many bytes `x` stand behind it, its end, and its cause.
const EDGES: [(&[u8], usize, &[u8], Option<LineFault>); 18] = [
    (b"user 1 1 ", 255, b"\n", None),
    (b"user 1 1 ", 256, b"\n", Some(LineFault::BadName)),
    (b"exit ", 512, b"\n", None),
    (b"exit ", 513, b"\n", Some(LineFault::BadName)),
    (b"call 1 1 uncontrol ", 512, b"\n", None),
    (b"call 1 1 uncontrol ", 513, b"\n", None),
    (b"call 1 1 owner ", 513, b"\n", None),
    (b"conf ", 16379, b"\n", None),
    (b"conf ", 16380, b"\n", Some(LineFault::TooLong)),
    (b"frob ", 16380, b"\n", Some(LineFault::TooLong)),
    (b"in 0 ", 16379, b"\n", Some(LineFault::BadNumber)),
    (b"in 0 ", 16380, b"\n", Some(LineFault::TooLong)),
    (b"go", 0, b"", Some(LineFault::Ended)),
    (b"frob", 0, b"", Some(LineFault::Ended)),
    (b"connect 1 01", 0, b"", Some(LineFault::Ended)),
    (b"", 0, b"", Some(LineFault::Ended)),
    (b"", 16384, b"", Some(LineFault::Ended)),
    (b"", 16385, b"", Some(LineFault::TooLong)),
];

/// The cause with which a line is refused, if it is: a front, so many bytes `x`, and an end.
fn fault(
    alloc: Global,
    front: &[u8],
    count: usize,
    end: &[u8],
) -> Result<Option<LineFault>, NoMemory> {
    let mut line = Vec::from_slice(alloc, front)?;
    line.extend_from_slice(&vec![in alloc; b'x'; count]?)?;
    line.extend_from_slice(end)?;
    Ok(read_line(alloc, &line).err())
}

#[test]
fn lines_have_their_causes(rt: HostRuntime) -> Result<(), Fail> {
    for (expected, lines) in &LINES {
        for line in lines.split('/') {
            assert_eq!(rt;
                fault(rt.alloc(), line.as_bytes(), 0, b"\n")?,
                *expected,
                "{line}"
            );
        }
    }
    Ok(())
}

#[test]
fn calls_are_read(rt: HostRuntime) -> Result<(), Fail> {
    for call in CALLS.split('/') {
        for front in ["call", "send"] {
            let line = format!(in rt.alloc(); "{front} 1 1 {call}")?;
            assert_eq!(rt;
                fault(rt.alloc(), line.as_bytes(), 0, b"\n")?,
                None,
                "{line}"
            );
        }
    }
    Ok(())
}

#[test]
fn lengths_have_their_edges(rt: HostRuntime) -> Result<(), Fail> {
    for (i, (front, count, end, expected)) in EDGES.iter().enumerate() {
        assert_eq!(rt; fault(rt.alloc(), front, *count, end)?, *expected, "{i}");
    }
    Ok(())
}
