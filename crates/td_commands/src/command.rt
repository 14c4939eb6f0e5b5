//! What a line of the workbench says.

ghost use Rattle.std.specs.Prelude.{◌≡◌, ◌<◌, ◌≤◌, ◌==◌, MatchOption, not, option_map};
ghost use Rattle.std.specs.List.{list_all};
ghost use Rattle.std.specs.Option.{option_copied};
ghost use Rattle.td_commands.specs.Lines as spec;
ghost use Rattle.td_commands.specs.Lines.{after_front, form_of, line_of, parted, site_number, without_space};
ghost use Rattle.td_commands.specs.Commands.{beside_number, beside_stamp, both_texts, meant};

/// The most bytes of a line, without its line end.
pub const LINE_BYTES: usize = 16_384;

/// What a line says. A number too large for a site stands as 65,536, and one too large for a clock as 10^18 + 1.
#[derive(Clone, Copy, PartialEq, Eq)]
pub enum Command<'a> {
    /// The empty line.
    Nothing,
    Quit,
    Issue {
        site: u32,
        text: &'a str,
    },
    Query {
        site: u32,
        text: &'a str,
    },
    /// The query is asked of the site as it was just after the entry of this clock and origin.
    QueryAt {
        site: u32,
        text: &'a str,
        clock: u64,
        origin: u32,
    },
    Meet {
        first: u32,
        second: u32,
    },
    Listing {
        site: u32,
    },
    Log {
        site: u32,
    },
    Vector {
        site: u32,
    },
    Table {
        site: u32,
        relvar: &'a str,
    },
    Serve {
        site: u32,
        address: &'a str,
    },
    Call {
        site: u32,
        address: &'a str,
    },
    /// It has none of the forms.
    Faulty,
}

/// What stands for each number that is too large for a site.
const NO_SITE: u64 = 65_536;

/// What stands for each number that is too large for a clock.
const NO_CLOCK: u64 = 1_000_000_000_000_000_001;

// The decimal number without leading zeros that this is.
fn number(digits: &str) -> Option<u32>
    ensures { result ≡ site_number digits.now }
{
    let number = number_within(digits.as_bytes(), NO_SITE)?;
    Some(number as u32)
}

// The decimal number that the digits are, or the greatest one that is told apart where it is larger.
fn number_within(digits: &[u8], most: u64) -> Option<u64>
    requires { most ≤ 1000000000000000001 }
    ensures small { MatchOption result (Unit {0}) (λ n. n ≤ most) }
    ensures told { result ≡ spec.number_within most digits.now }
{
    if digits.is_empty() || digits[0] == b'0' && digits.len() > 1 {
        return None;
    }
    let mut value: u64 = 0;
    for b in digits {
        if !b.is_ascii_digit() {
            return None;
        }
        value = (value * 10 + u64::from(*b - b'0')).min(most);
    }
    Some(value)
}

// What follows the front, which the line has.
fn after<'a>(front: &str, line: &'a str) -> Option<&'a str>
    ensures { option_copied result ≡ after_front front.now line.now }
{
    line.strip_prefix(front)
}

// What is before the first such character, and what is after it.
fn split_at_character(c: char, line: &str) -> Option<(&str, &str)>
    requires { c < 128 }
    ensures { option_map both_texts result ≡ parted c line.now }
{
    line.split_once(c)
}

// The text without one space in front of it, where there is one.
fn text_of(text: &str) -> &str
    ensures { result.now ≡ without_space text.now }
{
    after(" ", text).unwrap_or(text)
}

// A site's number and a text, with this mark between.
fn site_and_text(mark: char, line: &str) -> Option<(u32, &str)>
    requires { mark < 128 }
    ensures { option_map beside_number result ≡ spec.site_and_text mark line.now }
{
    let (site, text) = split_at_character(mark, line)?;
    let site = number(site)?;
    Some((site, text_of(text)))
}

// Whether none of the bytes is a space.
fn has_no_space(word: &[u8]) -> bool
    ensures { result ≡ list_all (λ b. not (b == 32)) word.now }
{
    word.iter().all(|b| *b != b' ')
}

// Whether a text is a word of a command: not empty, and without spaces.
fn is_word(word: &str) -> bool
    ensures { result ≡ spec.is_word word.now }
{
    !word.is_empty() && has_no_space(word.as_bytes())
}

// A site's number and a word.
fn site_and_word(words: &str) -> Option<(u32, &str)>
    ensures { option_map beside_number result ≡ spec.site_and_word words.now }
{
    let (site, word) = split_at_character(' ', words)?;
    if !is_word(word) {
        return None;
    }
    let site = number(site)?;
    Some((site, word))
}

// The meeting of two sites, from their numbers with one space between; None where it is anything else.
fn parse_meet(words: &str) -> Option<Command<'_>>
    ensures { option_map meant result ≡ spec.of_pair spec.meet (spec.two_sites words.now) }
{
    let (first, second) = split_at_character(' ', words)?;
    let first = number(first)?;
    let second = number(second)?;
    Some(Command::Meet { first, second })
}

// The listing of a site, from its number; None where the word is none.
fn parse_listing(word: &str) -> Option<Command<'static>>
    ensures { option_map meant result ≡ spec.of_site spec.listing word.now }
{
    let site = number(word)?;
    Some(Command::Listing { site })
}

// The log of a site, from its number; None where the word is none.
fn log(word: &str) -> Option<Command<'static>>
    ensures { option_map meant result ≡ spec.of_site spec.log word.now }
{
    let site = number(word)?;
    Some(Command::Log { site })
}

// The version vector of a site, from its number; None where the word is none.
fn vector(word: &str) -> Option<Command<'static>>
    ensures { option_map meant result ≡ spec.of_site spec.vector word.now }
{
    let site = number(word)?;
    Some(Command::Vector { site })
}

// The table of a relvar at a site, from the site's number and the relvar's name.
fn parse_table(words: &str) -> Option<Command<'_>>
    ensures { option_map meant result ≡ spec.of_pair spec.table (spec.site_and_word words.now) }
{
    let (site, relvar) = site_and_word(words)?;
    Some(Command::Table { site, relvar })
}

// That a site serves at an address, from the site's number and the address.
fn serve(words: &str) -> Option<Command<'_>>
    ensures { option_map meant result ≡ spec.of_pair spec.serve (spec.site_and_word words.now) }
{
    let (site, address) = site_and_word(words)?;
    Some(Command::Serve { site, address })
}

// That a site calls an address, from the site's number and the address.
fn call(words: &str) -> Option<Command<'_>>
    ensures { option_map meant result ≡ spec.of_pair spec.call (spec.site_and_word words.now) }
{
    let (site, address) = site_and_word(words)?;
    Some(Command::Call { site, address })
}

// A statement for a site, from a line of its number, a colon and the text; None where the line has another form.
fn issue(line: &str) -> Option<Command<'_>>
    ensures { option_map meant result ≡ spec.of_pair spec.issue (spec.site_and_text 58 line.now) }
{
    let (site, text) = site_and_text(':', line)?;
    Some(Command::Issue { site, text })
}

// CLOCK.SITE
fn stamp_in(word: &str) -> Option<(u64, u32)>
    ensures { result ≡ spec.stamp_in word.now }
{
    let (clock, origin) = split_at_character('.', word)?;
    let clock = number_within(clock.as_bytes(), NO_CLOCK)?;
    let origin = number(origin)?;
    Some((clock, origin))
}

// What is before the last such character, and what is after it.
fn parted_last(c: char, line: &str) -> Option<(&str, &str)>
    requires { c < 128 }
    ensures { option_map both_texts result ≡ spec.parted_last c line.now }
{
    line.rsplit_once(c)
}

// The text before its last character, which is to be a space.
fn before_space(text: &str) -> Option<&str>
    ensures { option_copied result ≡ spec.before_space text.now }
{
    text.strip_suffix(' ')
}

// The text that stands before ` @ `, and the stamp behind it.
fn at_stamp(text: &str) -> Option<(&str, (u64, u32))>
    ensures { option_map beside_stamp result ≡ spec.at_stamp text.now }
{
    let (front, rest) = parted_last('@', text)?;
    let front = before_space(front)?;
    let word = after(" ", rest)?;
    let stamp = stamp_in(word)?;
    Some((front, stamp))
}

// The query of a text at a site: at a stamp where the text tells one, otherwise of what the site holds now.
fn ask_command(site: u32, text: &str) -> Command<'_>
    ensures { meant result ≡ spec.query_form site text.now }
{
    match at_stamp(text) {
        Some((text, (clock, origin))) => Command::QueryAt {
            site,
            text,
            clock,
            origin,
        },
        None => Command::Query { site, text },
    }
}

// A query of a site, from a line of its number, a question mark and the text; None where the line has another form.
fn query(line: &str) -> Option<Command<'_>>
    ensures { option_map meant result ≡ spec.of_pair spec.query_form (spec.site_and_text 63 line.now) }
{
    let (site, text) = site_and_text('?', line)?;
    Some(ask_command(site, text))
}

// The form of a line that begins with this word, which has a dot.
fn dot_command<'a>(word: &str, rest: &'a str) -> Option<Command<'a>>
    ensures { option_map meant result ≡ spec.dotted word.now rest.now }
{
    if word == ".meet" {
        return parse_meet(rest);
    }
    if word == ".listing" {
        return parse_listing(rest);
    }
    if word == ".log" {
        return log(rest);
    }
    if word == ".vector" {
        return vector(rest);
    }
    if word == ".csv" {
        return parse_table(rest);
    }
    if word == ".serve" {
        return serve(rest);
    }
    if word == ".call" {
        return call(rest);
    }
    None
}

// The command of a line that begins with a word and a space; None where the word is no command, or takes other words.
fn dot_form(line: &str) -> Option<Command<'_>>
    ensures { option_map meant result ≡ spec.dot_form line.now }
{
    let (word, rest) = split_at_character(' ', line)?;
    dot_command(word, rest)
}

// The statement or the query that a line holds for a site; None where it holds neither.
fn text_form(line: &str) -> Option<Command<'_>>
    ensures { option_map meant result ≡ spec.text_form line.now }
{
    match issue(line) {
        Some(command) => Some(command),
        None => query(line),
    }
}

// The command that a line holds, empty ones and `.quit` included; None where the line has no form of a command.
fn form(line: &str) -> Option<Command<'_>>
    ensures { option_map meant result ≡ form_of line.now }
{
    if line.is_empty() {
        return Some(Command::Nothing);
    }
    if line == ".quit" {
        return Some(Command::Quit);
    }
    match dot_form(line) {
        Some(command) => Some(command),
        None => text_form(line),
    }
}

/// What a line says, without its line end.
pub fn command_of(line: &[u8]) -> Command<'_>
    ensures { meant result ≡ line_of line.now }
{
    if line.len() > LINE_BYTES {
        return Command::Faulty;
    }
    match std::str::from_utf8(line) {
        Ok(line) => form(line).unwrap_or(Command::Faulty),
        Err(_) => Command::Faulty,
    }
}
