// The table of the policy, as it is asked.

ghost use Rattle.std.specs.Prelude.{◌≡◌};
ghost use Rattle.login_model.specs.Table.{ask};

use login_model::{Action, Say, Standing, Table};

/// What the table says to the action, by the standing of whoever asks. Root may do everything.
pub fn ask(table: &Table, action: Action, standing: Standing) -> Say
    ensures { result ≡ ask table.now action standing }
{
    let row = table.row(action);
    match standing {
        Standing::Root => Say::Yes,
        Standing::Active => row.active,
        Standing::Inactive => row.inactive,
        Standing::Any => row.any,
    }
}
