// Endings of permits that nobody was handed, or that are ended already, and numbers that were lost.
//
// An ending is right where an earlier entry handed its permit out, and no earlier ending names it.
// So the first ending that names each number is noted beforehand; then each entry that hands a
// permit out marks the ending that is owed to it, and an ending is right where it is marked when it
// is reached. A mark for each number alone wouldn't do: a permit that was promoted is handed out by
// a claim or a giving up, and where that stands can't be told from the permit's number.
ghost use Rattle.std.specs.Prelude.{◌≡◌, ◌↔◌, ◌<◌, ◌+◌, ℕ, length, slice_get, slice_set};
ghost use Rattle.std.specs.Prelude.{IsTrue, IfOk, MatchOption};
ghost use Rattle.limiter_core.specs.declared.event.Entry.{Entry};
ghost use Rattle.audit.specs.Firsts.{EachHas, IsFirstWithout};
ghost use Rattle.audit.specs.Permits.{IsMatched};
ghost use Rattle.audit.specs.Marks.{AreFirstEndings, IsFirstEnding, AreOwed};

use crate::permits::{ended, handed_out, is_ending_of, is_lost};
use limiter_core::{Entry, PermitFacts};
use std::alloc::{AllocError, Global};

/// The first ending that names each number, or the entries' length where none does.
pub(crate) fn first_endings(alloc: Global, entries: &[Entry]) -> Result<Vec<usize>, AllocError>
    ensures { IfOk result (λ endings. AreFirstEndings entries.now endings.items) }
{
    let mut endings = vec![in alloc; entries.len(); entries.len()]?;
    for number in (0..entries.len()).rev() {
        if let Some(permit) = ended(&entries[number]) {
            note_ending(&mut endings, permit.number, number);
        }
    }
    Ok(endings)
}

/// Notes the ending of a number, where that is the number of an entry.
fn note_ending(endings: &mut [usize], named: u64, ending: usize)
    ensures { endings.new ≡ slice_set endings.old named ending }
{
    let named = named as usize;
    if named < endings.len() {
        endings[named] = ending;
    }
}

/// The first ending that names the permit's number, where it ends just this permit.
fn ending_of(entries: &[Entry], endings: &[usize], permit: &PermitFacts) -> Option<usize>
    requires { AreFirstEndings entries.now endings.now }
    ensures { MatchOption result ((ending : ℕ) → ¬ IsFirstEnding entries.now ending permit.now)
        (λ ending. IsFirstEnding entries.now ending permit.now) }
{
    let named = permit.number as usize;
    if named < endings.len() {
        let ending = endings[named];
        if ending < entries.len() && is_ending_of(&entries[ending], permit) {
            return Some(ending);
        }
    }
    None
}

/// Marks the ending of the permit that the entry of this number hands out.
fn mark_owed(entries: &[Entry], endings: &[usize], number: usize, owed: &mut [bool])
    requires within { number < length entries.now }
    requires endings { AreFirstEndings entries.now endings.now }
    requires owed { AreOwed entries.now number owed.old }
    ensures { AreOwed entries.now (number + 1) owed.new }
{
    if let Some(permit) = handed_out(number as u64, &entries[number]) {
        if let Some(ending) = ending_of(entries, endings, &permit) {
            owed[ending] = true;
        }
    }
}

/// The entry of this number is matched, by the marks of the entries before it.
fn is_matched(entries: &[Entry], number: usize, owed: &[bool]) -> bool
    requires within { number < length entries.now }
    requires owed { AreOwed entries.now number owed.now }
    ensures { (entry : Entry) → slice_get entries.now number ≡ Some entry
        → (IsTrue result ↔ IsMatched entries.now number entry) }
{
    let entry = &entries[number];
    if is_lost(entry) {
        return false;
    }
    match ended(entry) {
        Some(permit) => permit.number < number as u64 && owed[number],
        None => true,
    }
}

/// The number of the first entry that isn't matched.
pub(crate) fn first_unmatched(
    entries: &[Entry],
    endings: &[usize],
    owed: &mut [bool],
) -> Option<usize>
    requires endings { AreFirstEndings entries.now endings.now }
    requires owed { AreOwed entries.now 0 owed.old }
    ensures { MatchOption result (EachHas (IsMatched entries.now) entries.now)
        (λ number. IsFirstWithout (IsMatched entries.now) entries.now number) }
{
    for number in 0..entries.len() {
        if !is_matched(entries, number, owed) {
            return Some(number);
        }
        mark_owed(entries, endings, number, owed);
    }
    None
}
