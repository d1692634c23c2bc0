//! The options that a list of words gives: the reader that decides which words have a written form.
ghost use Rattle.std.specs.Prelude.{◌≡◌, IfOk, find, map, option_map, string_bytes};
ghost use Rattle.std.specs.List.{list_any};
ghost use Rattle.std.specs.Str.{bytes_eq};
ghost use Rattle.scr_args.specs.Options as written;
ghost use Rattle.scr_args.specs.Texts.{Follows, named_of, options_of, read_of, text_of};

use std::alloc::{AllocError as NoMemory, Global};

/// An option as the words give it.
#[derive(Clone, Copy)]
pub struct GivenOption<'a> {
    pub name: &'a str,
    pub value: &'a str,
}

/// The options of the words so far, and the name of that whose value is the next word.
#[derive(Drop)]
struct Reader<'a> {
    options: Vec<GivenOption<'a>>,
    awaited: Option<&'a str>,
}

/// The options that the words give, where each is known, has a value and is given once.
pub fn options_given(
    alloc: Global,
    words: &[String],
) -> Result<Option<Vec<GivenOption<'_>>>, NoMemory>
    ensures { IfOk result (λ found. option_map options_of found
        ≡ written.options_in (map string_bytes words.now)) }
{
    let mut reader = Reader {
        options: Vec::new(alloc),
        awaited: None,
    };
    for word in words {
        if !reader.read(word.as_str())? {
            return Ok(None);
        }
    }
    Ok(reader.whole())
}

impl<'a> Reader<'a> {
    /// Reads one more word, and says whether it has a place there.
    fn read(&mut self, word: &'a str) -> Result<bool, NoMemory>
        ensures { IfOk result (Follows (written.after_word (read_of self.old) word.now) self.new) }
    {
        match self.awaited {
            Some(name) => self.take_value(name, word),
            None => match named_in(word) {
                Some((name, value)) => self.begin(name, value),
                None => Ok(false),
            },
        }
    }

    /// Begins an option, whose value stands in the same word or is the next.
    fn begin(&mut self, name: &'a str, value: Option<&'a str>) -> Result<bool, NoMemory>
        ensures { IfOk result (Follows
            (written.begun (options_of self.old.options) (name.now, text_of value.entry)) self.new) }
    {
        if !self.can_begin(name) {
            return Ok(false);
        }
        match value {
            Some(value) => self.take_value(name, value),
            None => {
                self.awaited = Some(name);
                Ok(true)
            }
        }
    }

    /// Whether the name is that of an option that was not given before.
    fn can_begin(&self, name: &str) -> bool
        ensures { result ≡ written.can_begin name.now (options_of self.now.options) }
    {
        is_option(name) && !is_given(self.options.as_slice(), name)
    }

    /// Takes the value of an option, and says whether it is one.
    fn take_value(&mut self, name: &'a str, value: &'a str) -> Result<bool, NoMemory>
        ensures { IfOk result (Follows
            (written.valued name.now (options_of self.old.options) value.now) self.new) }
    {
        if !is_value(value) {
            return Ok(false);
        }
        self.options.push(GivenOption { name, value })?;
        self.awaited = None;
        Ok(true)
    }

    /// The options, where none is left without its value.
    fn whole(self) -> Option<Vec<GivenOption<'a>>>
        ensures { option_map options_of result ≡ written.whole (read_of self.entry) }
    {
        match self.awaited {
            Some(_) => None,
            None => Some(self.options),
        }
    }
}

/// The name that a word has behind `--`, and the value that it has behind `=`.
fn named_in(word: &str) -> Option<(&str, Option<&str>)>
    ensures { option_map named_of result ≡ written.named_in word.now }
{
    let text = word.strip_prefix('-')?.strip_prefix('-')?;
    match text.split_once('=') {
        Some((name, value)) => Some((name, Some(value))),
        None => Some((text, None)),
    }
}

fn is_option(name: &str) -> bool
    ensures { result ≡ written.is_option name.now }
{
    is_text("factors", name)
        || is_text("book", name)
        || is_text("edits", name)
        || is_text("make", name)
        || is_text("workers", name)
}

fn is_text(text: &str, name: &str) -> bool
    ensures { result ≡ bytes_eq text.now name.now }
{
    text == name
}

fn is_given(options: &[GivenOption<'_>], name: &str) -> bool
    ensures { result ≡ list_any (λ option. bytes_eq option.name.now name.now) options.now }
{
    options.iter().any(|option| option.name == name)
}

fn is_value(value: &str) -> bool
    ensures { result ≡ written.is_value value.now }
{
    match value.as_bytes() {
        [] => false,
        [first, ..] => *first != b'-',
    }
}

/// The value of an option.
pub fn value_of<'a>(options: &[GivenOption<'a>], name: &str) -> Option<&'a str>
    ensures { text_of result ≡ option_map (λ option. option.value.now)
        (find (λ option. bytes_eq option.name.now name.now) options.now) }
{
    options
        .iter()
        .find(|option| option.name == name)
        .map(|option| option.value)
}
