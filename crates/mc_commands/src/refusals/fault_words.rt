//! The kinds of faults of files by their names.

ghost use Rattle.std.specs.Prelude.{◌≡◌};
ghost use Rattle.mc_commands.specs.FaultText.{list_word as word_of_list, table_word as word_of_table};
ghost use Rattle.mc_commands.specs.FaultText.{topology_word as word_of_topology};

use mc_igmp::ListFaultKind;
use mc_tables::TableFaultKind;
use mc_topology::TopologyFaultKind;

/// The word for a fault of a kernel's table.
pub(crate) fn table_word(kind: TableFaultKind) -> &'static str
    ensures { result.now ≡ word_of_table kind }
{
    match kind {
        TableFaultKind::NoHeader => "NoHeader",
        TableFaultKind::Unended => "Unended",
        TableFaultKind::WordCount => "WordCount",
        TableFaultKind::BadIndex => "BadIndex",
        TableFaultKind::BadDevice => "BadDevice",
        TableFaultKind::BadCounter => "BadCounter",
        TableFaultKind::BadFlags => "BadFlags",
        TableFaultKind::BadAddress => "BadAddress",
        TableFaultKind::RepeatedIndex => "RepeatedIndex",
        TableFaultKind::RepeatedDevice => "RepeatedDevice",
        TableFaultKind::BadIif => "BadIif",
        TableFaultKind::BadOif => "BadOif",
        TableFaultKind::BadThreshold => "BadThreshold",
        TableFaultKind::RepeatedOif => "RepeatedOif",
        TableFaultKind::RepeatedEntry => "RepeatedEntry",
        TableFaultKind::TooLarge => "TooLarge",
        TableFaultKind::Memory => "Memory",
    }
}

/// The word for a fault of a report list.
pub(crate) fn list_word(kind: ListFaultKind) -> &'static str
    ensures { result.now ≡ word_of_list kind }
{
    match kind {
        ListFaultKind::BadHex => "BadHex",
        ListFaultKind::Short => "Short",
        ListFaultKind::BadChecksum => "BadChecksum",
        ListFaultKind::Truncated => "Truncated",
        ListFaultKind::StateChange => "StateChange",
        ListFaultKind::TooLarge => "TooLarge",
        ListFaultKind::Unended => "Unended",
        ListFaultKind::Memory => "Memory",
    }
}

/// The word for a fault of a topology.
pub(crate) fn topology_word(kind: TopologyFaultKind) -> &'static str
    ensures { result.now ≡ word_of_topology kind }
{
    match kind {
        TopologyFaultKind::NotToml => "NotToml",
        TopologyFaultKind::BadVersion => "BadVersion",
        TopologyFaultKind::MissingKey => "MissingKey",
        TopologyFaultKind::UnknownKey => "UnknownKey",
        TopologyFaultKind::BadKind => "BadKind",
        TopologyFaultKind::BadName => "BadName",
        TopologyFaultKind::RepeatedName => "RepeatedName",
        TopologyFaultKind::UnknownName => "UnknownName",
        TopologyFaultKind::RepeatedInterface => "RepeatedInterface",
        TopologyFaultKind::BadAddress => "BadAddress",
        TopologyFaultKind::BadTtl => "BadTtl",
        TopologyFaultKind::NoFlow => "NoFlow",
        TopologyFaultKind::RepeatedFlow => "RepeatedFlow",
        TopologyFaultKind::TooMany => "TooMany",
        TopologyFaultKind::Memory => "Memory",
    }
}
