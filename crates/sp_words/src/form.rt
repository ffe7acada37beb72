//! The dash rule, by one pass: which words before `--` may begin with a dash.

ghost use Rattle.std.specs.Prelude.{◌≡◌, None, is_some, map, string_bytes};
ghost use Rattle.sp_words.specs.Dashes.{after_dash, form_of, form_of_option, form_of_text, items, name_and_value};
ghost use Rattle.sp_words.specs.Dashes.{text_in, texts_of};

/// How a word before `--` reads, where no option waits for its value.
#[derive(Clone, Copy)]
pub(crate) enum Form {
    /// It does not begin with a dash.
    Plain,
    /// `--`: no later word is an option.
    End,
    /// `--name=value`.
    Whole,
    /// `--name`, whose value is the next word.
    Open,
    /// It begins with a dash and names no option of the command.
    Stray,
}

// What follows a first dash.
fn strip_dash(word: &str) -> Option<&str>
    ensures { text_in result ≡ after_dash word.now }
{
    word.strip_prefix('-')
}

// What stands before the first `=`, and what stands after it if there is one.
fn split_value(text: &str) -> (&str, Option<&str>)
    ensures { (result.0.now, text_in result.1) ≡ name_and_value text.now }
{
    match text.split_once('=') {
        Some((name, value)) => (name, Some(value)),
        None => (text, None),
    }
}

// How an option by its name and the value that stands in its word reads.
fn form_of_option(name: &str, value: Option<&str>, options: &[&str]) -> Form
    ensures { result ≡ form_of_option (texts_of options.now) (name.now, text_in value.entry) }
{
    if !options.contains(&name) {
        return Form::Stray;
    }
    match value {
        Some(_) => Form::Whole,
        None => Form::Open,
    }
}

// How the text after two dashes reads.
fn form_of_text(text: &str, options: &[&str]) -> Form
    ensures { result ≡ form_of_text (texts_of options.now) text.now }
{
    if text.is_empty() {
        return Form::End;
    }
    let (name, value) = split_value(text);
    form_of_option(name, value, options)
}

fn form_of(word: &str, options: &[&str]) -> Form
    ensures { result ≡ form_of (texts_of options.now) word.now }
{
    let Some(tail) = strip_dash(word) else {
        return Form::Plain;
    };
    match strip_dash(tail) {
        Some(text) => form_of_text(text, options),
        None => Form::Stray,
    }
}

/// Whether the words after the command keep the dash rule, for a command with these options.
pub(crate) fn keeps_dash_rule(words: &[String], options: &[&str]) -> bool
    ensures { result ≡ is_some (items (texts_of options.now) None (map string_bytes words.now)) }
{
    let mut waits = false;
    for word in words {
        let word = word.as_str();
        if waits {
            if strip_dash(word).is_some() {
                return false;
            }
            waits = false;
        } else {
            match form_of(word, options) {
                Form::Plain | Form::Whole => {}
                Form::End => return true,
                Form::Open => waits = true,
                Form::Stray => return false,
            }
        }
    }
    !waits
}
