//! An IGMP message, the payload of one IP packet (RFC 3376, section 4).

ghost use Rattle.std.specs.Prelude.{◌≡◌, ◌≤◌, length, slice_index, IfOk, Ok};
ghost use Rattle.mc_igmp.specs.declared.message.Message.{Message};
ghost use Rattle.mc_igmp.specs.Message.{IsMessage};
ghost use Rattle.mc_igmp.specs.ReadingMessage.{read_message, read_by_type};

use crate::checksum::is_checksum_right;
use crate::record::group_of;
use crate::records::Records;
use byteorder::{BigEndian, ByteOrder};
use thiserror::Error;

/// The number of bytes of a report before its records, which each message has at least.
const HEADER_LEN: usize = 8;

/// The type of a Version 1 report (RFC 1112, appendix I).
const VERSION_1_REPORT: u8 = 0x12;

/// The type of a Version 2 report (RFC 2236, section 2.1).
const VERSION_2_REPORT: u8 = 0x16;

/// The type of a Version 3 report.
const VERSION_3_REPORT: u8 = 0x22;

/// An IGMP message.
#[derive(Debug, Drop)]
pub enum Message<'a> {
    /// A report, with its records. A report of version 1 or 2 counts as one record, by which all sources
    /// of its group are wanted (RFC 3376, section 7.3.2).
    Report(Records<'a>),
    /// A message of another type, with its type byte.
    Other(u8),
}

/// Why bytes are no message. The number in front of each never changes.
#[derive(Clone, Copy, Debug, PartialEq, Eq, Error)]
pub enum MessageFault {
    /// (1) There are fewer than 8 bytes.
    #[error("Short")]
    Short,
    /// (2) The checksum is wrong.
    #[error("BadChecksum")]
    BadChecksum,
    /// (3) The record of this number, counted from 1, doesn't end within the message.
    #[error("Truncated {0}")]
    Truncated(u32),
}

/// The message of these bytes, whose length and checksum are right.
fn parse_by_type(bytes: &[u8]) -> Result<Message<'_>, MessageFault>
    requires within { HEADER_LEN ≤ length bytes.now }
    ensures value { result ≡ read_by_type bytes.now (slice_index bytes.now 0) }
{
    match bytes[0] {
        VERSION_3_REPORT => {
            let count = BigEndian::read_u16(&bytes[6..]);
            Records::read(count, &bytes[HEADER_LEN..])
                .map(Message::Report)
                .map_err(MessageFault::Truncated)
        }
        VERSION_1_REPORT | VERSION_2_REPORT => {
            Ok(Message::Report(Records::of_older_report(group_of(bytes))))
        }
        other => Ok(Message::Other(other)),
    }
}

impl<'a> Message<'a> {
    /// Reads a message. All types have the same checksum. Reports of versions 1, 2 and 3 have the types
    /// 0x12, 0x16 and 0x22. Of a message of another type nothing else is read.
    ///
    /// # Errors
    ///
    /// The first of `Short`, `BadChecksum` and `Truncated`.
    pub fn parse(bytes: &'a [u8]) -> Result<Message<'a>, MessageFault>
        // The bytes are the message that is read.
        ensures found { IfOk result (λ message. IsMessage bytes.now message) }
        // Bytes that are a message are read as it.
        ensures only { (message : Message) → IsMessage bytes.now message → result ≡ Ok message }
        // Which fault it is.
        ensures fault { result ≡ read_message bytes.now }
    {
        if bytes.len() < HEADER_LEN {
            return Err(MessageFault::Short);
        }
        if !is_checksum_right(bytes) {
            return Err(MessageFault::BadChecksum);
        }
        parse_by_type(bytes)
    }
}
