// Where a key stands in the text of a configuration.
ghost use Rattle.std.specs.Prelude.{◌≡◌};
ghost use Rattle.config_explain.specs.Explained.{table_name};

use gate_config::Section;

/// A line, counted from 1.
#[derive(Clone, Copy)]
pub(crate) struct Line<'a> {
    pub(crate) number: usize,
    pub(crate) text: &'a str,
}

/// A key that is looked for: its section, of an array which member, counted from 0, and its name.
#[derive(Clone, Copy)]
pub(crate) struct Wanted<'a> {
    pub(crate) section: Section,
    pub(crate) member: usize,
    pub(crate) name: &'a str,
}

/// What was found so far.
#[derive(Clone, Copy)]
struct Finder<'a> {
    wanted: Wanted<'a>,
    // Whether lines are outside all tables, and whether they are of the member that is wanted.
    is_top: bool,
    is_here: bool,
    // How many members have begun.
    members: usize,
    key: Option<Line<'a>>,
    head: Option<Line<'a>>,
}

/// The line of the key, where it has one of its own, or else that at which its table begins.
pub(crate) fn find_line<'a>(text: &'a str, wanted: Wanted<'a>) -> Option<Line<'a>> {
    let is_top = section_name(wanted.section).is_empty();
    let mut finder = Finder {
        wanted,
        is_top: true,
        is_here: is_top,
        members: 0,
        key: None,
        head: None,
    };
    let mut number = 0usize;
    for line in text.lines() {
        number = number.saturating_add(1);
        finder.look(Line { number, text: line });
    }
    finder.key.or(finder.head)
}

impl<'a> Finder<'a> {
    /// Looks at the next line.
    fn look(&mut self, line: Line<'a>) {
        let text = line.text.trim();
        match head_of(text) {
            Some(head) => self.enter(head, line),
            None => {
                if let Some(key) = key_of(text) {
                    self.meet(key, line);
                }
            }
        }
    }

    /// A table begins.
    fn enter(&mut self, head: &str, line: Line<'a>) {
        let section = section_name(self.wanted.section);
        let name = self.wanted.name;
        self.is_top = false;
        self.is_here = false;
        if section.is_empty() {
            self.settle(head == name, line);
        } else if head == section {
            self.is_here = self.members == self.wanted.member;
            self.members = self.members.saturating_add(1);
            if self.is_here && self.head.is_none() {
                self.head = Some(line);
            }
        } else if self.members == self.wanted.member.saturating_add(1) {
            self.settle(below(head, section) == Some(name), line);
        }
    }

    /// A key is given.
    fn meet(&mut self, key: &str, line: Line<'a>) {
        let section = section_name(self.wanted.section);
        let name = self.wanted.name;
        if self.is_here {
            self.settle(key == name, line);
        } else if self.is_top {
            self.settle(below(key, section) == Some(name), line);
            if key == section && self.head.is_none() {
                self.head = Some(line);
            }
        }
    }

    /// The line is the key's, where it is the first that is.
    fn settle(&mut self, is_key: bool, line: Line<'a>) {
        if is_key && self.key.is_none() {
            self.key = Some(line);
        }
    }
}

/// The name in the head of a table or of an array's member.
fn head_of(text: &str) -> Option<&str> {
    let inner = text.strip_prefix("[")?;
    let inner = inner.strip_prefix("[").unwrap_or(inner);
    let (name, _) = inner.split_once("]")?;
    Some(name.trim())
}

/// The key in front of a value.
fn key_of(text: &str) -> Option<&str> {
    let (key, _) = text.split_once("=")?;
    Some(key.trim())
}

/// What is behind the section and a dot in a dotted key.
fn below<'a>(key: &'a str, section: &str) -> Option<&'a str> {
    let rest = key.strip_prefix(section)?;
    let rest = rest.trim_start().strip_prefix(".")?;
    Some(rest.trim())
}

/// The name of a section; none outside all tables.
pub(crate) fn section_name(section: Section) -> &'static str
    ensures { result.now ≡ table_name section }
{
    match section {
        Section::Top => "",
        Section::Limit => "limit",
        Section::Window => "window",
        Section::Class => "class",
        Section::Resolver => "resolver",
        Section::Bypass => "bypass",
    }
}
