//! What the structs of statistics say, proved over all of them.

ghost use Rattle.std.specs.Prelude.{pos};
ghost use Rattle.ms_structs.specs.Laws.{OrderIsFree};
ghost use Rattle.stat_structs.specs.Descs.{desc_of, desc_tree};
ghost use Rattle.stat_structs.specs.Flags.{IsFlags, flags_made, flags_of, flags_tree};
ghost use Rattle.stat_structs.specs.Kept.{IsKeptDesc};
ghost use Rattle.stat_structs.specs.Laws.{LastCounts, MembersReadBack, NoMemberNoValue, ObjectsReadBack, ReadsBack, ResultsReadBack, StatisticsReadBack};
ghost use Rattle.stat_structs.specs.Longs.{IsLong, long_made, long_of, long_tree};
ghost use Rattle.stat_structs.specs.Objects.{object_of};
ghost use Rattle.stat_structs.specs.Requests.{request_of};
ghost use Rattle.stat_structs.specs.Statistics.{statistics_of};
ghost use Rattle.stat_structs.specs.Strings.{IsStr, string_made, string_of, string_tree};

/// The order of fields with different ids doesn't count. Among the members of a ColumnStatisticsData
/// it does, as `last_member_counts` says.
pub fn order_is_free()
    ensures flags { OrderIsFree flags_of }
    ensures longs { OrderIsFree long_of }
    ensures strings { OrderIsFree string_of }
    ensures objects { OrderIsFree object_of }
    ensures descs { OrderIsFree desc_of }
    ensures statistics { OrderIsFree statistics_of }
    ensures requests { OrderIsFree request_of }
{}

/// Of the fields of a ColumnStatisticsData the last one with a known member's id and type counts:
/// 1 a BooleanColumnStatsData, 2 a LongColumnStatsData, 4 a StringColumnStatsData. Where there is none
/// there is no value.
pub fn last_member_counts()
    ensures flags { LastCounts (pos 1) flags_made }
    ensures longs { LastCounts (pos 2) long_made }
    ensures strings { LastCounts (pos 4) string_made }
    ensures none { NoMemberNoValue }
{}

/// What is written reads back as it was; a column's statistics with the column's name and their value,
/// but without the column's type and the moment, which nobody hands in.
pub fn written_is_read()
    ensures flags { ReadsBack IsFlags flags_of flags_tree }
    ensures longs { ReadsBack IsLong long_of long_tree }
    ensures strings { ReadsBack IsStr string_of string_tree }
    ensures members { MembersReadBack }
    ensures objects { ObjectsReadBack }
    ensures descs { ReadsBack IsKeptDesc desc_of desc_tree }
    ensures statistics { StatisticsReadBack }
    ensures results { ResultsReadBack }
{}
