//! Laws of reading messages and report lists, which follow from the definitions alone.

ghost use Rattle.std.specs.Prelude.{◌≡◌, ◌↔◌, ◌<◌, ℕ, List, Ok, slice_index};
ghost use Rattle.mc_igmp.specs.declared.record.Record.{Record};
ghost use Rattle.mc_igmp.specs.declared.message.Message.{Message};
ghost use Rattle.mc_igmp.specs.Message.{IsMessage};
ghost use Rattle.mc_igmp.specs.ReadingMessage.{read_message};
ghost use Rattle.mc_igmp.specs.ReportList.{IsReportList};
ghost use Rattle.mc_igmp.specs.ReadingList.{read_list};

/// Bytes are read as a message exactly if they are that message. So bytes are at most one message.
pub fn messages_are_read_exactly()
    ensures { (bytes : List ℕ) (message : Message) → ((index : ℕ) → slice_index bytes index < 256) →
        ((read_message bytes ≡ Ok message) ↔ IsMessage bytes message) }
{}

/// A text is read as records exactly if it is a report list of these records. So a text is the report
/// list of at most one list of records.
pub fn report_lists_are_read_exactly()
    ensures { (text : List ℕ) (records : List Record) →
        ((read_list text ≡ Ok records) ↔ IsReportList text records) }
{}
