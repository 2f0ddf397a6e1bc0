//! The moment of a change.

ghost use Rattle.std.specs.Prelude.{◌≡◌, IfOk, decimal, pos};
ghost use Rattle.kept_records.specs.Tables.{change_key, cut_moment, dated};

use cat_values::{CopyParts, NoMemory, Params, Text, TryCopy};
use std::alloc::Global;

// The greatest moment that a record's number of four bytes holds.
const LAST_MOMENT: u64 = 2_147_483_647;

// The parameter that shows when a table or partition was last made or altered.
const CHANGE_KEY: &str = "transient_lastDdlTime";

// Parameters that are copied with the moment of the change, where they don't have one.
#[derive(Drop)]
pub(crate) struct Dated<'a> {
    pub(crate) params: &'a Params,
    pub(crate) moment: u64,
}

impl<'a> CopyParts for Dated<'a> {
    type Made = Params;

    ghost seen = { λ part. dated part.params.now part.moment };

    fn copy_parts(self, alloc: Global) -> Result<Params, NoMemory> {
        let key = change_key(alloc)?;
        let mut made = self.params.copy(alloc)?;
        if made.get(&key).is_some() {
            return Ok(made);
        }
        made.put(key, moment_text(alloc, self.moment)?)?;
        Ok(made)
    }
}

// A moment as a record's number, cut to the greatest one.
pub(crate) fn cut_moment(moment: u64) -> i32
    ensures { result ≡ pos (cut_moment moment) }
{
    moment.min(LAST_MOMENT) as i32
}

fn change_key(alloc: Global) -> Result<Text, NoMemory>
    ensures { IfOk result (λ key. key ≡ change_key) }
{
    match Text::of(alloc, CHANGE_KEY) {
        Ok(key) => Ok(key),
        Err(_) => Err(NoMemory),
    }
}

// A moment in decimal digits.
fn moment_text(alloc: Global, moment: u64) -> Result<Text, NoMemory>
    ensures { IfOk result (λ text. text ≡ decimal (cut_moment moment)) }
{
    let cut = moment.min(LAST_MOMENT);
    let digits = format!(in alloc; "{cut}")?;
    match Text::of(alloc, digits.as_str()) {
        Ok(text) => Ok(text),
        Err(_) => Err(NoMemory),
    }
}
