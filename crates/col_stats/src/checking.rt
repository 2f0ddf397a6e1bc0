//! Which values a column takes.

ghost use Rattle.std.specs.Prelude.{◌≡◌, ◌↔◌, IsTrue};
ghost use Rattle.std.specs.Option.{option_copied};
ghost use Rattle.std.specs.Result.{result_err};
ghost use Rattle.cat_values.specs.Columns.{column_named};
ghost use Rattle.col_stats.specs.Rules.{IsFirstBroken, IsNegative, asks_for_other, first_fault};

use cat_values::{Column, Columns, StatValue, Text, TypeKind, find_column, type_kind};

/// Why a value isn't one of a column's statistics. Where several hold, the first of this order is
/// answered.
#[derive(Clone, Copy, Debug, PartialEq, Eq)]
pub enum StatFault {
    /// The column is a partition key.
    WrongKey,
    /// There is no such column.
    WrongColumn,
    /// The column's type asks for values of another kind: `boolean` for flags, `tinyint`,
    /// `smallint`, `int` and `bigint` for whole numbers, `string`, `varchar(..)` and `char(..)`
    /// for texts. A type is read in lower case and without the spaces at its ends. Columns of
    /// other types take all three kinds.
    WrongKind,
    /// A count is below 0; the lowest and highest value are no counts.
    Negative,
}

/// Whether a value may stand among a column's statistics, for a table with these columns and
/// partition keys. Of columns with equal names the first counts. It takes no memory.
pub fn check(cols: &Columns, keys: &Columns, col: &Text, value: &StatValue) -> Result<(), StatFault>
    ensures rule { IsFirstBroken (column_named keys.now col.now) (column_named cols.now col.now) value.now result }
    ensures test { result_err result ≡ first_fault (column_named keys.now col.now) (column_named cols.now col.now) value.now }
{
    let key = find_column(keys.as_slice(), col);
    let column = find_column(cols.as_slice(), col);
    check_found(key, column, value)
}

/// The same where the key and the column with the name were looked for already: `key` and `column` are
/// the first of each that has it. It takes no memory.
pub fn check_found(
    key: Option<&Column>,
    column: Option<&Column>,
    value: &StatValue,
) -> Result<(), StatFault>
    ensures rule { IsFirstBroken (option_copied key.entry) (option_copied column.entry) value.now result }
    ensures test { result_err result ≡ first_fault (option_copied key.entry) (option_copied column.entry) value.now }
{
    first_broken(key, column, value)
}

// The first rule that a value breaks, of the key and the column with its name.
fn first_broken(
    key: Option<&Column>,
    column: Option<&Column>,
    value: &StatValue,
) -> Result<(), StatFault>
    ensures { IsFirstBroken (option_copied key.entry) (option_copied column.entry) value.now result }
{
    if key.is_some() {
        return Err(StatFault::WrongKey);
    }
    let Some(column) = column else {
        return Err(StatFault::WrongColumn);
    };
    if asks_for_other(type_kind(&column.ty), value) {
        return Err(StatFault::WrongKind);
    }
    if is_negative(value) {
        return Err(StatFault::Negative);
    }
    Ok(())
}

// Whether a column whose type has a kind takes only values of other kinds than this one's.
fn asks_for_other(kind: TypeKind, value: &StatValue) -> bool
    ensures { result ≡ asks_for_other kind value.now }
{
    match kind {
        TypeKind::Boolean => !matches!(value, StatValue::Flags { .. }),
        TypeKind::Integer => !matches!(value, StatValue::Long { .. }),
        TypeKind::Text => !matches!(value, StatValue::Str { .. }),
        TypeKind::Date | TypeKind::Other => false,
    }
}

// Whether a count of a value is below 0.
fn is_negative(value: &StatValue) -> bool
    ensures { IsTrue result ↔ IsNegative value.now }
{
    match value {
        StatValue::Flags {
            trues,
            falses,
            nulls,
        } => *trues < 0 || *falses < 0 || *nulls < 0,
        StatValue::Long {
            low: _,
            high: _,
            nulls,
            distinct,
        } => *nulls < 0 || *distinct < 0,
        StatValue::Str {
            longest,
            average: _,
            nulls,
            distinct,
        } => *longest < 0 || *nulls < 0 || *distinct < 0,
    }
}
