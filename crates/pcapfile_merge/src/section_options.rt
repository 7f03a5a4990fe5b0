//! The options of the section header of a merge.

ghost use Rattle.std.specs.Prelude.{◌≡◌, ◌≤◌, ◌++◌, length, map, string_bytes, take, MatchResult};
ghost use Rattle.std.specs.List.{flat_map, list_any};
ghost use Rattle.std.specs.Option.{option_map};
ghost use Rattle.pcap_core.specs.Errors.{IsMemory};
ghost use Rattle.pcap_options.specs.CommonOptions.{carries_string};
ghost use Rattle.pcap_options.specs.SectionOption.{section_entry};
ghost use Rattle.pcapfile_merge.specs.SectionOptions.{AddsFewer, added, comment as comment_entry, comments_on, conflict_with, is_same, options_with, single_of, word_for};

use pcap_file::ResultParsing;
use pcap_file::pcapng::SectionHeaderOption;
use pcap_options::first_string;
use std::alloc::Global;
use std::borrow::CowStr;

/// The most bytes of an option's value.
const LONGEST: usize = 65535;

/// Adds the options of a section header to those of the headers of earlier captures. `name` is the name of its capture.
///
/// An option that an earlier header has is not added again. If an earlier header has another hardware, operating system or application, a
/// comment that names the capture has the value.
///
/// Returns `OutOfMemory` if an allocation for what is added fails. Then `options` has the first of the options to add, but not all of them.
pub fn add_options<'a>(
    alloc: Global,
    name: &str,
    section: Vec<SectionHeaderOption<'a>>,
    options: &mut Vec<SectionHeaderOption<'a>>,
) -> ResultParsing<()>
    ensures { MatchResult result
        (λ done. map section_entry options.new.items ≡ options_with name.now (map section_entry options.old.items) (map section_entry section.entry.items))
        (λ e. IsMemory e × AddsFewer (flat_map (added name.now (map section_entry options.old.items)) (map section_entry section.entry.items))
        (map section_entry options.old.items) (map section_entry options.new.items)) }
{
    let earlier = options.len();
    for option in section {
        add_option(alloc, name, earlier, option, options)?;
    }
    Ok(())
}

// Adds an option to those of earlier headers, which are so many, and of its own header.
fn add_option<'a>(
    alloc: Global,
    name: &str,
    earlier: usize,
    option: SectionHeaderOption<'a>,
    options: &mut Vec<SectionHeaderOption<'a>>,
) -> ResultParsing<()>
    requires { earlier ≤ length options.old.items }
    ensures { MatchResult result
        (λ done. map section_entry options.new.items ≡ map section_entry options.old.items
        ++ added name.now (map section_entry (take earlier options.old.items)) (section_entry option.entry))
        (λ e. IsMemory e × AddsFewer (added name.now (map section_entry (take earlier options.old.items)) (section_entry option.entry))
        (map section_entry options.old.items) (map section_entry options.new.items)) }
{
    let before = &options.as_slice()[..earlier];
    if has(before, &option) {
        return Ok(());
    }
    match conflict(before, &option) {
        Some((code, text)) => add_comments(alloc, name, code, text, options),
        None => Ok(options.push(option)?),
    }
}

// Returns the code and the string of an option of which there is at most one, if one of the earlier options is of its kind.
fn conflict<'a>(
    earlier: &[SectionHeaderOption<'_>],
    option: &'a SectionHeaderOption<'_>,
) -> Option<(u16, &'a str)>
    ensures { option_map (λ it. (it.0, it.1.now)) result ≡ conflict_with (map section_entry earlier.now) (section_entry option.now) }
{
    let (code, text) = single(option)?;
    match first_string(earlier, code) {
        Some(_) => Some((code, text)),
        None => None,
    }
}

// Adds comments that name the capture, the kind of an option and its string.
#[tactic(auto, using(crate::proofs::SectionOptions::none_added, crate::proofs::SectionOptions::one_added, crate::proofs::SectionOptions::some_comments))]
fn add_comments(
    alloc: Global,
    name: &str,
    code: u16,
    text: &str,
    options: &mut Vec<SectionHeaderOption<'_>>,
) -> ResultParsing<()>
    ensures { MatchResult result
        (λ done. map section_entry options.new.items ≡ map section_entry options.old.items ++ comments_on name.now (code, text.now))
        (λ e. IsMemory e × AddsFewer (comments_on name.now (code, text.now)) (map section_entry options.old.items) (map section_entry options.new.items)) }
{
    let mut front = String::from_str(alloc, name)?;
    front.push_str(": ")?;
    front.push_str(word(code))?;
    front.push_str(": ")?;
    if text.len() > LONGEST || front.len() > LONGEST - text.len() {
        let rest = comment(String::from_str(alloc, text)?);
        options.push(comment(front))?;
        options.push(rest)?;
        return Ok(());
    }
    front.push_str(text)?;
    options.push(comment(front))?;
    Ok(())
}

fn comment<'a>(text: String) -> SectionHeaderOption<'a>
    ensures { section_entry result ≡ comment_entry (string_bytes text) }
{
    SectionHeaderOption::Comment(CowStr::Owned(text))
}

// Returns the word for an option with this code.
fn word(code: u16) -> &'static str
    ensures { result.now ≡ word_for code }
{
    match code {
        2 => "hardware",
        3 => "os",
        _ => "application",
    }
}

// Returns the code and the string of an option, if a section header has at most one of its kind.
fn single<'a>(option: &'a SectionHeaderOption<'_>) -> Option<(u16, &'a str)>
    ensures { option_map (λ it. (it.0, it.1.now)) result ≡ single_of (section_entry option.now) }
{
    match option {
        SectionHeaderOption::Hardware(text) => Some((2, text.as_str())),
        SectionHeaderOption::OS(text) => Some((3, text.as_str())),
        SectionHeaderOption::UserApplication(text) => Some((4, text.as_str())),
        _ => None,
    }
}

// Returns whether one of these options is the same as another.
#[tactic(auto, using(crate::proofs::SectionOptions::found, crate::proofs::SectionOptions::missed))]
fn has(options: &[SectionHeaderOption<'_>], option: &SectionHeaderOption<'_>) -> bool
    ensures { result ≡ list_any (is_same (section_entry option.now)) (map section_entry options.now) }
{
    for other in options {
        if are_same(option, other) {
            return true;
        }
    }
    false
}

// Returns whether two options have the same code and the same value.
fn are_same(left: &SectionHeaderOption<'_>, right: &SectionHeaderOption<'_>) -> bool
    ensures { result ≡ is_same (section_entry left.now) (section_entry right.now) }
{
    match (left, right) {
        (SectionHeaderOption::Comment(left), SectionHeaderOption::Comment(right))
        | (SectionHeaderOption::Hardware(left), SectionHeaderOption::Hardware(right))
        | (SectionHeaderOption::OS(left), SectionHeaderOption::OS(right))
        | (
            SectionHeaderOption::UserApplication(left),
            SectionHeaderOption::UserApplication(right),
        ) => left.as_str() == right.as_str(),
        (SectionHeaderOption::CustomBinary(left), SectionHeaderOption::CustomBinary(right)) => {
            left.code() == right.code()
                && left.pen() == right.pen()
                && left.value() == right.value()
        }
        (SectionHeaderOption::CustomUtf8(left), SectionHeaderOption::CustomUtf8(right)) => {
            left.code() == right.code()
                && left.pen() == right.pen()
                && left.value() == right.value()
        }
        (SectionHeaderOption::Unknown(left), SectionHeaderOption::Unknown(right)) => {
            left.code() == right.code() && left.value() == right.value()
        }
        _ => false,
    }
}
