//! Names of columns in lower case.

ghost use Rattle.std.specs.Prelude.{◌≡◌, IfOk, map};
ghost use Rattle.cat_values.specs.Names.{lower};
ghost use Rattle.kept_records.specs.Tables.{lower_column, lower_columns, lower_if_any, lower_order, lower_skew, lower_storage};

use cat_values::{Column, Columns, CopyParts, ListOf, NoMemory, Order, Skew, Storage, Text};
use std::alloc::Global;

/// Columns with their names in lower case.
pub fn lower_columns(alloc: Global, columns: &Columns) -> Result<Columns, NoMemory>
    ensures { IfOk result (λ made. made ≡ lower_columns columns.now) }
{
    columns.lower_names(alloc)
}

// A value in which names of columns stand.
pub(crate) trait NamesColumns: Drop {
    ghost lowered: { Self → Self };

    // The value with these names in lower case.
    fn lower_names(&self, alloc: Global) -> Result<Self, NoMemory>
        ensures { IfOk result (λ made. made ≡ lowered self.now) };
}

// A part of a record that is copied with its names of columns in lower case.
#[derive(Drop)]
pub(crate) struct InLower<'a, T>(pub(crate) &'a T);

impl<'a, T: NamesColumns> CopyParts for InLower<'a, T> {
    type Made = T;

    ghost seen = { λ part. T.lowered part.0.now };

    fn copy_parts(self, alloc: Global) -> Result<T, NoMemory> {
        self.0.lower_names(alloc)
    }
}

impl NamesColumns for Text {
    ghost lowered = { lower };

    fn lower_names(&self, alloc: Global) -> Result<Text, NoMemory> {
        self.to_lower(alloc)
    }
}

impl<T: NamesColumns> NamesColumns for ListOf<T> {
    ghost lowered = { map T.lowered };

    fn lower_names(&self, alloc: Global) -> Result<ListOf<T>, NoMemory> {
        let mut made = Vec::with_capacity(alloc, self.len())?;
        for item in self.as_slice() {
            made.push(item.lower_names(alloc)?)?;
        }
        ListOf::from_vec(made)
    }
}

impl NamesColumns for Column {
    ghost lowered = { lower_column };

    fn lower_names(&self, alloc: Global) -> Result<Column, NoMemory> {
        match (InLower(&self.name), &self.ty, &self.comment).copy_parts(alloc) {
            Ok((name, ty, comment)) => Ok(Column { name, ty, comment }),
            Err(NoMemory) => Err(NoMemory),
        }
    }
}

impl NamesColumns for Order {
    ghost lowered = { lower_order };

    fn lower_names(&self, alloc: Global) -> Result<Order, NoMemory> {
        match self.col.to_lower(alloc) {
            Ok(col) => Ok(Order { col, dir: self.dir }),
            Err(NoMemory) => Err(NoMemory),
        }
    }
}

impl NamesColumns for Skew {
    ghost lowered = { lower_skew };

    fn lower_names(&self, alloc: Global) -> Result<Skew, NoMemory> {
        match (InLower(&self.cols), &self.values, &self.places).copy_parts(alloc) {
            Ok((cols, values, places)) => Ok(Skew {
                cols,
                values,
                places,
            }),
            Err(NoMemory) => Err(NoMemory),
        }
    }
}

impl NamesColumns for Option<Skew> {
    ghost lowered = { lower_if_any };

    fn lower_names(&self, alloc: Global) -> Result<Option<Skew>, NoMemory> {
        match self {
            None => Ok(None),
            Some(skew) => Ok(Some(skew.lower_names(alloc)?)),
        }
    }
}

impl NamesColumns for Storage {
    ghost lowered = { lower_storage };

    fn lower_names(&self, alloc: Global) -> Result<Storage, NoMemory> {
        match (
            (InLower(&self.cols), &self.location, &self.input),
            (&self.output, &self.serde, InLower(&self.bucket_cols)),
            (InLower(&self.sort_cols), &self.params, InLower(&self.skew)),
        )
            .copy_parts(alloc)
        {
            Ok(
                ((cols, location, input), (output, serde, bucket_cols), (sort_cols, params, skew)),
            ) => Ok(Storage {
                cols,
                location,
                input,
                output,
                compressed: self.compressed,
                buckets: self.buckets,
                serde,
                bucket_cols,
                sort_cols,
                params,
                skew,
                sub_dirs: self.sub_dirs,
            }),
            Err(NoMemory) => Err(NoMemory),
        }
    }
}
