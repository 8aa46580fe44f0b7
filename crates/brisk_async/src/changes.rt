//! The changes that events make to the store and the mail.
ghost use Rattle.std.specs.Prelude.{◌≡◌, OnOk, OnErr};
ghost use Rattle.brisk_values.specs.Places.{value_in};
ghost use Rattle.brisk_syntax.specs.Stores.{stored};
ghost use Rattle.brisk_syntax.specs.Syntax.{done};
ghost use Rattle.brisk_async.specs.Acts.{effect_with};
ghost use Rattle.brisk_async.specs.Keys.{mail_in};
ghost use Rattle.brisk_async.specs.Machine.{changed_mail};

use crate::effect::Change;
use crate::mail::Mail;
use brisk_syntax::store_all;
use brisk_values::{NoMemory, Pid, Store};

/// Makes the change to the store and the mail.
pub fn make_change(
    store: &mut Store,
    mail: &mut Mail,
    process: &Pid,
    change: Change,
) -> Result<(), NoMemory>
    ensures stored { OnOk result (let x = effect_with done change in value_in store.new ≡ stored (value_in store.old) process.now x.variables x.values) }
    ensures sent { OnOk result (let x = effect_with done change in mail_in mail.new ≡ changed_mail x.mail (mail_in mail.old)) }
    ensures err { OnErr result ((store.new ≡ store.old) × (mail.new ≡ mail.old)) }
{
    match change {
        Change::Nothing => Ok(()),
        Change::Stores(x, v) => {
            store.set(*process, x, v)?;
            Ok(())
        }
        Change::Sends(key, payload) => {
            mail.push(&key, payload)?;
            Ok(())
        }
        Change::Takes(key, place, vars, values) => {
            store_all(store, process, &vars, &values)?;
            mail.take(&key, place);
            Ok(())
        }
    }
}
