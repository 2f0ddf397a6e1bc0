//! What structs say, proved over all of them.

ghost use Rattle.ms_structs.specs.Laws.{OrderIsFree};
ghost use Rattle.table_structs.specs.Columns.{column_of, column_tree};
ghost use Rattle.table_structs.specs.Contexts.{context_of};
ghost use Rattle.table_structs.specs.Kept.{IsKeptColumn, IsKeptOrder, IsKeptSerde, IsKeptSkew, IsKeptStorage};
ghost use Rattle.table_structs.specs.Laws.{PartitionsReadBack, ReadsBack, TablesReadBack};
ghost use Rattle.table_structs.specs.Orders.{order_of, order_tree};
ghost use Rattle.table_structs.specs.PartRequests.{adding_of};
ghost use Rattle.table_structs.specs.Partitions.{partition_of};
ghost use Rattle.table_structs.specs.Requests.{request_of};
ghost use Rattle.table_structs.specs.Serdes.{serde_of, serde_tree};
ghost use Rattle.table_structs.specs.Skews.{skew_of, skew_tree};
ghost use Rattle.table_structs.specs.Storages.{storage_of, storage_tree};
ghost use Rattle.table_structs.specs.Tables.{table_of};

/// The order of fields with different ids doesn't count.
pub fn order_is_free()
    ensures columns { OrderIsFree column_of }
    ensures orders { OrderIsFree order_of }
    ensures serdes { OrderIsFree serde_of }
    ensures skews { OrderIsFree skew_of }
    ensures storages { OrderIsFree storage_of }
    ensures tables { OrderIsFree table_of }
    ensures contexts { OrderIsFree context_of }
    ensures requests { OrderIsFree request_of }
    ensures partitions { OrderIsFree partition_of }
    ensures adding { OrderIsFree adding_of }
{}

/// What is written reads back as it was.
pub fn written_is_read()
    ensures columns { ReadsBack IsKeptColumn column_of column_tree }
    ensures orders { ReadsBack IsKeptOrder order_of order_tree }
    ensures serdes { ReadsBack IsKeptSerde serde_of serde_tree }
    ensures skews { ReadsBack IsKeptSkew skew_of skew_tree }
    ensures storages { ReadsBack IsKeptStorage storage_of storage_tree }
    ensures tables { TablesReadBack }
    ensures partitions { PartitionsReadBack }
{}
