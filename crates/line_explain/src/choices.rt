// What the forms want at a place.
use crate::fitting::reach;
use script::{NumberPlace, RangeEnd, TextKind, WordPlace, line_forms};
use std::alloc::AllocError;

/// What may stand at a place.
#[derive(Clone, Copy)]
enum Choice<'a> {
    /// This word.
    Word(&'a str),
    /// A number of this form.
    Number(&'a [WordPlace], NumberPlace),
    /// The name of a class that the line brings.
    Name,
    /// That of a class that is known.
    Class,
    /// Nothing: the line has ended.
    End,
}

/// What may stand at a place, put behind one another.
#[derive(Drop)]
struct Choices<'a, 'b> {
    out: &'b mut String,
    // The last that was met: how it is joined hangs on what follows it.
    last: Option<Choice<'a>>,
    count: usize,
}

/// Says what the forms want at a place, of those that have all words before it.
pub(crate) fn push_choices(
    out: &mut String,
    kind: TextKind,
    line: &[u8],
    place: usize,
) -> Result<(), AllocError> {
    let mut choices = Choices {
        out,
        last: None,
        count: 0,
    };
    let mut before = None;
    for form in line_forms(kind) {
        if reach(line, form) == place {
            let wanted = form.get(place).copied();
            if !is_same(before, wanted) {
                choices.meet_at(form, wanted)?;
            }
            before = wanted;
        }
    }
    choices.end()
}

impl<'a, 'b> Choices<'a, 'b> {
    /// What a form wants.
    fn meet_at(
        &mut self,
        form: &'a [WordPlace],
        wanted: Option<WordPlace>,
    ) -> Result<(), AllocError> {
        match wanted {
            None => self.meet(Choice::End),
            Some(WordPlace::Name) => self.meet(Choice::Name),
            Some(WordPlace::Class) => self.meet(Choice::Class),
            Some(WordPlace::Number(number)) => self.meet(Choice::Number(form, number)),
            Some(WordPlace::Words(words)) => self.meet_words(words),
        }
    }

    /// Words, of which one is wanted.
    fn meet_words(&mut self, words: &'a [&'a str]) -> Result<(), AllocError> {
        for word in words {
            self.meet(Choice::Word(word))?;
        }
        Ok(())
    }

    /// One more.
    fn meet(&mut self, choice: Choice<'a>) -> Result<(), AllocError> {
        self.join(", ")?;
        self.last = Some(choice);
        Ok(())
    }

    /// The last, put behind those before it.
    fn join(&mut self, between: &str) -> Result<(), AllocError> {
        if let Some(last) = self.last {
            if self.count > 0 {
                self.out.push_str(between)?;
            }
            push_choice(self.out, last)?;
            self.count = self.count.saturating_add(1);
        }
        Ok(())
    }

    /// There are no more.
    fn end(&mut self) -> Result<(), AllocError> {
        self.join(" or ")
    }
}

/// Whether two forms that begin alike want the same.
fn is_same(one: Option<WordPlace>, other: Option<WordPlace>) -> bool {
    match (one, other) {
        (Some(WordPlace::Words(one)), Some(WordPlace::Words(other))) => one.first()
            == other.first(),
        (Some(WordPlace::Number(one)), Some(WordPlace::Number(other))) => one.name == other.name,
        (Some(WordPlace::Name), Some(WordPlace::Name))
        | (Some(WordPlace::Class), Some(WordPlace::Class)) => true,
        _ => false,
    }
}

/// Says what is wanted.
fn push_choice(out: &mut String, choice: Choice<'_>) -> Result<(), AllocError> {
    match choice {
        Choice::Word(word) => out.push_str(word),
        Choice::Number(form, number) => {
            let name = number.name;
            write!(out, "{name} in digits, ")?;
            push_held(out, form, number)
        }
        Choice::Name => out.push_str("NAME, the name of a class"),
        Choice::Class => out.push_str("CLASS, the name of a class, or unknown"),
        Choice::End => out.push_str("nothing more"),
    }
}

/// Says what a number counts, and its range by the names of the form.
pub(crate) fn push_held(
    out: &mut String,
    form: &[WordPlace],
    number: NumberPlace,
) -> Result<(), AllocError> {
    let NumberPlace {
        held,
        low,
        high,
        ..
    } = number;
    out.push_str(held)?;
    if let RangeEnd::At(u64::MAX) = high {
        return Ok(());
    }
    push_bound(out, form, low)?;
    out.push_str(" to ")?;
    push_bound(out, form, high)
}

/// Says an end of a range.
fn push_bound(out: &mut String, form: &[WordPlace], end: RangeEnd) -> Result<(), AllocError> {
    match end {
        RangeEnd::At(number) => write!(out, "{number}"),
        RangeEnd::Of(place) => match form.get(place) {
            Some(WordPlace::Number(number)) => out.push_str(number.name),
            _ => Ok(()),
        },
    }
}
