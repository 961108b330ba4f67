// The default table, the names of actions and the default configuration, as they are documented, and texts of
// tables.

use login_base::Millis;
use login_model::Say::{Challenge, No, Yes};
use login_model::{
    Action, Conf, KeyAction, OpKind, PowerAction, Qualifier, Row, Say, Standing, Table,
};
use login_policy::{TableFault, ask, read_table};

/// The name of an action, and what a table says to any, inactive and active connections.
type Asked<'t> = (&'t [u8], Say, Say, Say);

/// What the default table says.
const DEFAULTS: [Asked; 29] = [
    (b"chvt", Challenge, Challenge, Yes),
    (b"lock-sessions", Challenge, Challenge, Challenge),
    (b"manage", Challenge, Challenge, Challenge),
    (b"set-user-linger", Challenge, Challenge, Challenge),
    (b"set-self-linger", Yes, Yes, Yes),
    (b"inhibit-delay-shutdown", Yes, Yes, Yes),
    (b"inhibit-delay-sleep", Yes, Yes, Yes),
    (b"inhibit-block-shutdown", No, Challenge, Yes),
    (b"inhibit-block-sleep", No, Yes, Yes),
    (b"inhibit-block-idle", No, Yes, Yes),
    (b"inhibit-handle-power-key", No, Yes, Yes),
    (b"inhibit-handle-suspend-key", No, Yes, Yes),
    (b"inhibit-handle-hibernate-key", No, Yes, Yes),
    (b"inhibit-handle-lid-switch", No, Yes, Yes),
    (b"power-off", Challenge, Challenge, Yes),
    (b"reboot", Challenge, Challenge, Yes),
    (b"halt", Challenge, Challenge, Yes),
    (b"suspend", Challenge, Challenge, Yes),
    (b"hibernate", Challenge, Challenge, Yes),
    (b"power-off-multiple-sessions", Challenge, Challenge, Yes),
    (b"reboot-multiple-sessions", Challenge, Challenge, Yes),
    (b"halt-multiple-sessions", Challenge, Challenge, Yes),
    (b"suspend-multiple-sessions", Challenge, Challenge, Yes),
    (b"hibernate-multiple-sessions", Challenge, Challenge, Yes),
    (b"power-off-ignore-inhibit", Challenge, Challenge, Challenge),
    (b"reboot-ignore-inhibit", Challenge, Challenge, Challenge),
    (b"halt-ignore-inhibit", Challenge, Challenge, Challenge),
    (b"suspend-ignore-inhibit", Challenge, Challenge, Challenge),
    (b"hibernate-ignore-inhibit", Challenge, Challenge, Challenge),
];

/// Whether a table says this, and yes to root.
fn says(table: &Table, asked: &Asked) -> bool {
    let (name, any, inactive, active) = *asked;
    match Action::read(name) {
        Some(action) => {
            action.name() == name
                && ask(table, action, Standing::Root) == Yes
                && ask(table, action, Standing::Active) == active
                && ask(table, action, Standing::Inactive) == inactive
                && ask(table, action, Standing::Any) == any
        }
        None => false,
    }
}

/// The name of the first action of which a table says something else.
fn first_other<'t>(table: &Table, all: &[Asked<'t>]) -> Option<&'t [u8]> {
    for asked in all {
        if !says(table, asked) {
            return Some(asked.0);
        }
    }
    None
}

#[test]
fn default_table(rt: HostRuntime) {
    assert_eq!(rt; first_other(&Table::default(), &DEFAULTS), None);
}

const NO_NAMES: [&[u8]; 6] = [
    b"",
    b"chv",
    b"Chvt",
    b"power-off ",
    b"poweroff",
    b"hybrid-sleep",
];

#[test]
fn other_names(rt: HostRuntime) {
    for name in NO_NAMES {
        assert!(rt; Action::read(name).is_none());
    }
}

#[test]
fn rows_are_replaced(rt: HostRuntime) {
    let mut table = Table::default();
    let power_off = Action::Power(PowerAction::PowerOff, Qualifier::Plain);
    let row = Row {
        any: Yes,
        inactive: No,
        active: Challenge,
    };
    table.set_row(power_off, row);
    assert!(rt; ask(&table, power_off, Standing::Any) == Yes);
    assert!(rt; ask(&table, power_off, Standing::Inactive) == No);
    assert!(rt; ask(&table, power_off, Standing::Active) == Challenge);
    assert!(rt; ask(&table, power_off, Standing::Root) == Yes);
    let reboot = Action::Power(PowerAction::Reboot, Qualifier::Plain);
    assert!(rt; ask(&table, reboot, Standing::Any) == Challenge);
}

const KINDS: [(OpKind, &[u8]); 7] = [
    (OpKind::PowerOff, b"power-off"),
    (OpKind::Reboot, b"reboot"),
    (OpKind::Halt, b"halt"),
    (OpKind::Suspend, b"suspend"),
    (OpKind::Hibernate, b"hibernate"),
    (OpKind::HybridSleep, b"hibernate"),
    (OpKind::SuspendThenHibernate, b"hibernate"),
];

#[test]
fn actions_of_operations(rt: HostRuntime) {
    for (kind, name) in KINDS {
        let action = Action::Power(PowerAction::from(kind), Qualifier::Plain);
        assert!(rt; action.name() == name);
    }
}

#[test]
fn default_configuration(rt: HostRuntime) {
    let conf = Conf::default();
    let wanted = Conf {
        auto_vts: 6,
        sessions_max: 8192,
        inhibitors_max: 8192,
        inhibit_delay_max: Millis(5_000),
        user_stop_delay: Millis(10_000),
        idle_action_delay: Millis(1_800_000),
        handle_power_key: KeyAction::Operation(OpKind::PowerOff),
        handle_suspend_key: KeyAction::Operation(OpKind::Suspend),
        handle_hibernate_key: KeyAction::Operation(OpKind::Hibernate),
        handle_lid_switch: KeyAction::Operation(OpKind::Suspend),
        handle_lid_switch_docked: KeyAction::Ignore,
        idle_action: KeyAction::Ignore,
        power_key_ignore_inhibited: false,
        suspend_key_ignore_inhibited: false,
        hibernate_key_ignore_inhibited: false,
        lid_switch_ignore_inhibited: true,
    };
    assert!(rt; conf == wanted);
}

/// Texts of tables, and the fault of each.
const REFUSED: [(&[u8], TableFault); 14] = [
    (b"power-off no\n", TableFault::BadLine(1)),
    (b"power-off no no no no\n", TableFault::BadLine(1)),
    (b"power-off  no no no\n", TableFault::BadLine(1)),
    (b"power-off no no No\n", TableFault::BadLine(1)),
    (b"power-off no no no", TableFault::BadLine(1)),
    (b"\n", TableFault::BadLine(1)),
    (b"foo yes yes yes\n", TableFault::UnknownAction(1)),
    (b" yes yes yes\n", TableFault::UnknownAction(1)),
    (b"foo yes yes maybe\n", TableFault::BadLine(1)),
    (
        b"chvt no no no\nPower-off no no no\n",
        TableFault::UnknownAction(2),
    ),
    (
        b"power-off no no no\npower-off no no no\n",
        TableFault::Repeated(2),
    ),
    (
        b"power-off no no no\npower-off no no\n",
        TableFault::BadLine(2),
    ),
    (
        b"halt yes no no\nchvt no no no\nhalt no no no\nfoo\n",
        TableFault::Repeated(3),
    ),
    (b"chvt no no no\nhalt no no no", TableFault::BadLine(2)),
];

#[test]
fn tables_are_refused(rt: HostRuntime) {
    for (text, fault) in REFUSED {
        assert!(rt; matches!(read_table(rt.alloc(), text), Err(found) if found == fault));
    }
}

#[test]
fn tables_are_read(rt: HostRuntime) {
    let text = b"power-off no challenge yes\nchvt yes no challenge\n";
    let table = read_table(rt.alloc(), text);
    assert!(rt; table.is_ok());
    if let Ok(table) = table {
        let power_off = Action::Power(PowerAction::PowerOff, Qualifier::Plain);
        assert!(rt; ask(&table, power_off, Standing::Any) == No);
        assert!(rt; ask(&table, power_off, Standing::Inactive) == Challenge);
        assert!(rt; ask(&table, power_off, Standing::Active) == Yes);
        assert!(rt; ask(&table, Action::ChangeVt, Standing::Inactive) == No);
        assert!(rt; ask(&table, Action::Manage, Standing::Active) == Challenge);
    }
}

/// Whether a table has a row with this.
fn has_row(table: &Table, asked: &Asked) -> bool {
    let (name, any, inactive, active) = *asked;
    let row = Row {
        any,
        inactive,
        active,
    };
    match Action::read(name) {
        Some(action) => table.row(action) == row,
        None => false,
    }
}

/// The name of the first action whose row in a table is another one.
fn first_other_row<'t>(table: &Table, all: &[Asked<'t>]) -> Option<&'t [u8]> {
    for asked in all {
        if !has_row(table, asked) {
            return Some(asked.0);
        }
    }
    None
}

#[test]
fn an_empty_table_is_the_default(rt: HostRuntime) {
    match read_table(rt.alloc(), b"") {
        Ok(table) => assert_eq!(rt; first_other_row(&table, &DEFAULTS), None),
        Err(_) => assert!(rt; false),
    }
}
