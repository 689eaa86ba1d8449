//! The words after `audit`, read one by one.

ghost use Rattle.std.specs.Prelude.{◌≡◌, map, IfOk, Some, OnOk, option_map};
ghost use Rattle.mc_cli.specs.AuditDraft.{IsNextGiven, given_of};
ghost use Rattle.mc_cli.specs.GivenWords.{router_after_equals, nothing_given};
ghost use Rattle.mc_cli.specs.GivenWords.{with_folder, with_option, with_option_or_folder, with_router};
ghost use Rattle.mc_cli.specs.GivenWords.{range_after_equals, with_range, with_range_or_other};
ghost use Rattle.mc_cli.specs.GivenWords.{with_word, with_words};

use crate::audit_options::{
    AuditOptions, FAULTS_WORD, IGNORE_WORD, JSON_WORD, STRICT_WORD, TRAVEL_WORD, UNLISTED_WORD,
    WITHOUT_WORD,
};
use std::alloc::{AllocError, Global};

/// What the next word may be.
#[derive(Clone, Copy, Debug, PartialEq, Eq)]
pub enum NextWord {
    /// An option or the folder.
    Options,
    /// The router of the `--without` before it, whatever it begins with.
    Router,
    /// The range of the `--ignore` before it.
    Range,
    /// The folder, and no option: `--` came before it.
    FolderOnly,
}

/// What the words so far have given.
#[derive(Debug, Drop)]
pub struct Draft<'a> {
    /// The folder.
    pub folder: Option<&'a str>,
    /// The options.
    pub options: AuditOptions,
    /// The routers to exclude, in the order of the words.
    pub without: Vec<&'a str>,
    /// The ranges to ignore, in the order of the words.
    pub ignored: Vec<&'a str>,
    /// What the next word may be.
    pub next_word: NextWord,
}

/// The router of the word `--without=ROUTER`.
fn router_after_equals(word: &str) -> Option<&str>
    ensures { option_map (λ router. router.now) result ≡ router_after_equals word.now }
{
    word.strip_prefix("--without=")
}

/// The range of the word `--ignore=RANGE`.
fn range_after_equals(word: &str) -> Option<&str>
    ensures { option_map (λ range. range.now) result ≡ range_after_equals word.now }
{
    word.strip_prefix("--ignore=")
}

/// The options with the one that the word names. None where it names none, or one given before.
fn with_option(options: AuditOptions, word: &str) -> Option<AuditOptions>
    ensures { result ≡ with_option word.now options }
{
    match word {
        TRAVEL_WORD => (!options.travels).then_some(AuditOptions {
            travels: true,
            ..options
        }),
        FAULTS_WORD => (!options.faults).then_some(AuditOptions {
            faults: true,
            ..options
        }),
        UNLISTED_WORD => (!options.unlisted).then_some(AuditOptions {
            unlisted: true,
            ..options
        }),
        STRICT_WORD => (!options.strict).then_some(AuditOptions {
            strict: true,
            ..options
        }),
        JSON_WORD => (!options.json).then_some(AuditOptions {
            json: true,
            ..options
        }),
        _ => None,
    }
}

impl<'a> Draft<'a> {
    /// A draft before the first word.
    fn new(alloc: Global) -> Draft<'a>
        ensures { given_of result ≡ nothing_given }
    {
        Draft {
            folder: None,
            options: AuditOptions {
                travels: false,
                faults: false,
                unlisted: false,
                strict: false,
                json: false,
            },
            without: Vec::new(alloc),
            ignored: Vec::new(alloc),
            next_word: NextWord::Options,
        }
    }

    /// Adds a router to exclude.
    fn add_router(&mut self, router: &'a str) -> Result<(), AllocError>
        ensures { OnOk result
            (given_of self.new ≡ with_router router.now (given_of self.old)) }
    {
        self.without.push(router)?;
        self.next_word = NextWord::Options;
        Ok(())
    }

    /// Adds a range to ignore.
    fn add_range(&mut self, range: &'a str) -> Result<(), AllocError>
        ensures { OnOk result
            (given_of self.new ≡ with_range range.now (given_of self.old)) }
    {
        self.ignored.push(range)?;
        self.next_word = NextWord::Options;
        Ok(())
    }

    /// Sets the folder. False where it was set before.
    fn add_folder(&mut self, word: &'a str) -> bool
        ensures { IsNextGiven result (with_folder word.now (given_of self.old)) (given_of self.new) }
    {
        if self.folder.is_some() {
            return false;
        }
        self.folder = Some(word);
        true
    }

    /// Adds an option, or sets the folder. False where the word isn't valid there.
    fn add_option_or_folder(&mut self, word: &'a str) -> Result<bool, AllocError>
        ensures { IfOk result (λ right. IsNextGiven right
            (with_option_or_folder word.now (given_of self.old)) (given_of self.new)) }
    {
        if word == "--" {
            self.next_word = NextWord::FolderOnly;
            return Ok(true);
        }
        if word == WITHOUT_WORD {
            self.next_word = NextWord::Router;
            return Ok(true);
        }
        if word == IGNORE_WORD {
            self.next_word = NextWord::Range;
            return Ok(true);
        }
        if let Some(router) = router_after_equals(word) {
            self.add_router(router)?;
            return Ok(true);
        }
        self.add_range_or_other(word)
    }

    /// Adds a range behind `--ignore=`, an option or the folder. False where the word isn't valid there.
    fn add_range_or_other(&mut self, word: &'a str) -> Result<bool, AllocError>
        ensures { IfOk result (λ right. IsNextGiven right
            (with_range_or_other (range_after_equals word.now) word.now (given_of self.old))
            (given_of self.new)) }
    {
        if let Some(range) = range_after_equals(word) {
            self.add_range(range)?;
            return Ok(true);
        }
        if !word.starts_with('-') {
            return Ok(self.add_folder(word));
        }
        let Some(options) = with_option(self.options, word) else {
            return Ok(false);
        };
        self.options = options;
        Ok(true)
    }

    /// Adds the next word. False where it isn't valid there.
    fn add_word(&mut self, word: &'a str) -> Result<bool, AllocError>
        ensures { IfOk result (λ right. IsNextGiven right
            (with_word self.old.next_word word.now (given_of self.old)) (given_of self.new)) }
    {
        match self.next_word {
            NextWord::Options => self.add_option_or_folder(word),
            NextWord::Router => {
                self.add_router(word)?;
                Ok(true)
            }
            NextWord::Range => {
                self.add_range(word)?;
                Ok(true)
            }
            NextWord::FolderOnly => Ok(self.add_folder(word)),
        }
    }
}

/// What the words give. None where one of them isn't valid.
pub fn draft_of<'a>(alloc: Global, words: &[&'a str]) -> Result<Option<Draft<'a>>, AllocError>
    ensures { IfOk result (λ draft. option_map given_of draft
        ≡ with_words (Some nothing_given) (map (λ word. word.now) words.now)) }
{
    let mut draft = Draft::new(alloc);
    for word in words {
        if !draft.add_word(*word)? {
            return Ok(None);
        }
    }
    Ok(Some(draft))
}
