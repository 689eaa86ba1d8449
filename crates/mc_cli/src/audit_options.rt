//! The options of `audit`, and the word of each.

/// What an audit shows beside its verdict, and how: the options that have no value.
#[derive(Clone, Copy, Debug, PartialEq, Eq)]
pub struct AuditOptions {
    /// The travel of each packet that shows a fault is shown, event by event.
    pub travels: bool,
    /// The flows that are right and wanted are hidden.
    pub faults: bool,
    /// All unlisted sources and groups of the caches are shown, not the 20 lowest alone.
    pub unlisted: bool,
    /// The answer is no where nobody wants a flow that is right.
    pub strict: bool,
    /// The output is JSON, one object a line.
    pub json: bool,
}

/// The word for `travels`.
pub const TRAVEL_WORD: &str = "--travel";

/// The word for `faults`.
pub const FAULTS_WORD: &str = "--faults";

/// The word for `unlisted`.
pub const UNLISTED_WORD: &str = "--unlisted";

/// The word for `strict`.
pub const STRICT_WORD: &str = "--strict";

/// The word for `json`.
pub const JSON_WORD: &str = "--json";

/// The word before an excluded router.
pub const WITHOUT_WORD: &str = "--without";

/// The word before a range of groups whose wants are ignored.
pub const IGNORE_WORD: &str = "--ignore";
