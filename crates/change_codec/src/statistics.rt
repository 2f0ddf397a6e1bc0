//! Statistics of columns in bytes.

ghost use Rattle.std.specs.Prelude.{◌≡◌, ◌∷◌, OnOk};
ghost use Rattle.change_codec.specs.Forms.{made_read};
ghost use Rattle.change_codec.specs.Records.{stat_code, stat_fits, stat_flags, stat_long, stat_rec, stat_str, stat_value};
ghost use Rattle.change_codec.specs.Whole.{Gives};
ghost use Rattle.cat_values.specs.Gathering.{Gathers};

use crate::fault::Stop;
use crate::reading::Get;
use crate::tags::{FLAG_STATS, LONG_STATS, TEXT_STATS};
use crate::version::Version;
use crate::writing::{Put, put_tagged};
use cat_types::{Bytes, NoMemory, StatRec, StatValue};
use std::alloc::Global;

#[tactic(auto, unfolding(crate::specs::Forms::tagged_read))]
impl Get for StatValue {
    ghost read = { λ _. stat_value.read };

    fn get(alloc: Global, version: Version, bytes: &[u8]) -> Result<(StatValue, &[u8]), Stop> {
        match bytes {
            [] => Err(Stop::Left(0)),
            [FLAG_STATS, rest @ ..] => get_flags(alloc, version, rest),
            [LONG_STATS, rest @ ..] => get_long(alloc, version, rest),
            [TEXT_STATS, rest @ ..] => get_str(alloc, version, rest),
            [_, ..] => Err(Stop::Left(bytes.len())),
        }
    }
}

#[tactic(auto, unfolding(crate::specs::Forms::made_read))]
fn get_flags(alloc: Global, version: Version, bytes: &[u8]) -> Result<(StatValue, &[u8]), Stop>
    ensures { Gives (λ x. (x.0, x.1.now)) result (made_read (λ p. StatValue.Flags p.0 p.1 p.2) stat_flags.read bytes.now) }
{
    match <(i64, i64, i64)>::get(alloc, version, bytes) {
        Ok(((trues, falses, nulls), rest)) => Ok((
            StatValue::Flags {
                trues,
                falses,
                nulls,
            },
            rest,
        )),
        Err(stop) => Err(stop),
    }
}

#[tactic(auto, unfolding(crate::specs::Forms::made_read))]
fn get_long(alloc: Global, version: Version, bytes: &[u8]) -> Result<(StatValue, &[u8]), Stop>
    ensures { Gives (λ x. (x.0, x.1.now)) result (made_read (λ p. StatValue.Long p.0 p.1 p.2 p.3) stat_long.read bytes.now) }
{
    match <(Option<i64>, Option<i64>, i64, i64)>::get(alloc, version, bytes) {
        Ok(((low, high, nulls, distinct), rest)) => Ok((
            StatValue::Long {
                low,
                high,
                nulls,
                distinct,
            },
            rest,
        )),
        Err(stop) => Err(stop),
    }
}

#[tactic(auto, unfolding(crate::specs::Forms::made_read))]
fn get_str(alloc: Global, version: Version, bytes: &[u8]) -> Result<(StatValue, &[u8]), Stop>
    ensures { Gives (λ x. (x.0, x.1.now)) result (made_read (λ p. StatValue.Str p.0 p.1 p.2 p.3) stat_str.read bytes.now) }
{
    match <(i64, [u8; 8], i64, i64)>::get(alloc, version, bytes) {
        Ok((parts, rest)) => {
            let (longest, average, nulls, distinct) = parts;
            Ok((
                StatValue::Str {
                    longest,
                    average,
                    nulls,
                    distinct,
                },
                rest,
            ))
        }
        Err(stop) => Err(stop),
    }
}

impl Put for StatValue {
    ghost HasCode = { stat_fits };

    ghost code = { stat_code };

    fn put(&self, out: &mut Bytes) -> Result<(), NoMemory> {
        match self {
            StatValue::Flags {
                trues,
                falses,
                nulls,
            } => put_tagged(FLAG_STATS, &(trues, falses, nulls), out),
            StatValue::Long {
                low,
                high,
                nulls,
                distinct,
            } => put_tagged(LONG_STATS, &(low, high, nulls, distinct), out),
            StatValue::Str {
                longest,
                average,
                nulls,
                distinct,
            } => put_tagged(TEXT_STATS, &(longest, average, nulls, distinct), out),
        }
    }
}

#[tactic(auto, unfolding(crate::specs::Forms::made_read))]
impl Get for StatRec {
    ghost read = { λ _. stat_rec.read };

    fn get(alloc: Global, version: Version, bytes: &[u8]) -> Result<(StatRec, &[u8]), Stop> {
        match <(i64, StatValue)>::get(alloc, version, bytes) {
            Ok(((analyzed, value), rest)) => Ok((StatRec { analyzed, value }, rest)),
            Err(stop) => Err(stop),
        }
    }
}

impl Put for StatRec {
    ghost HasCode = { stat_rec.HasCode };

    ghost code = { stat_rec.code };

    fn put(&self, out: &mut Bytes) -> Result<(), NoMemory> {
        (&self.analyzed, &self.value).put(out)
    }
}
