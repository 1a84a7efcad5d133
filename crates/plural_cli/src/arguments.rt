//! What stands after a command's name: words of its own, and options with their values.

ghost use Rattle.std.specs.Prelude.{◌≡◌, ◌≤◌, ◌∷◌, length, bytes_eq, MatchOption};
ghost use Rattle.std.specs.String.{string_bytes};
ghost use Rattle.plural_cli.specs.Arguments.{Arguments, with_one, arguments};
ghost use Rattle.plural_cli.specs.Given.{texts, with_argument, kept, Begins, IsWith, IsTaken, IsTwice};

/// An argument: a word of the command's own, or the value of an option.
#[derive(Clone, Copy)]
pub(crate) enum Argument<'w> {
    Word(&'w [u8]),
    Cores(&'w [u8]),
    Order(&'w [u8]),
}

/// The arguments of a command: at most one word of its own, and at most one value of each option.
#[derive(Clone, Copy)]
pub(crate) struct Given<'w> {
    pub word: Option<&'w [u8]>,
    pub cores: Option<&'w [u8]>,
    pub order: Option<&'w [u8]>,
}

/// Arguments with one more, or nothing if its place is taken.
fn with<'w>(given: Given<'w>, argument: Argument<'w>) -> Option<Given<'w>>
    ensures { MatchOption result (IsTaken given.entry argument.entry) (IsWith given.entry argument.entry) }
{
    match argument {
        Argument::Word(word) if given.word.is_none() => Some(Given {
            word: Some(word),
            ..given
        }),
        Argument::Cores(value) if given.cores.is_none() => Some(Given {
            cores: Some(value),
            ..given
        }),
        Argument::Order(value) if given.order.is_none() => Some(Given {
            order: Some(value),
            ..given
        }),
        _ => None,
    }
}

/// Whether a word is this one.
pub(crate) fn is_word(word: &String, wanted: &str) -> bool
    ensures { result ≡ bytes_eq (string_bytes word.now) wanted.now }
{
    word.as_str() == wanted
}

/// An argument of one word.
fn one(word: &String) -> Argument<'_>
    ensures { (a : Arguments) → with_argument result a ≡ with_one (string_bytes word.now) a }
{
    let word = word.as_bytes();
    if let Some(value) = word.strip_prefix(b"--cores=") {
        return Argument::Cores(value);
    }
    match word.strip_prefix(b"--order=") {
        Some(value) => Argument::Order(value),
        None => Argument::Word(word),
    }
}

/// The argument that begins with a word, and the words after it.
fn first<'w>(word: &'w String, after: &'w [String]) -> (Argument<'w>, &'w [String])
    ensures argument { Begins (string_bytes word.now ∷ texts after.now) result.0 (texts result.1.now) }
    ensures shorter { length result.1.now ≤ length after.now }
{
    match after {
        [value, rest @ ..] if is_word(word, "--cores") => {
            (Argument::Cores(value.as_bytes()), rest)
        }
        [value, rest @ ..] if is_word(word, "--order") => {
            (Argument::Order(value.as_bytes()), rest)
        }
        _ => (one(word), after),
    }
}

/// The arguments that words spell, or nothing if one of them is there twice.
pub(crate) fn arguments(words: &[String]) -> Option<Given<'_>>
    ensures { let a = arguments (texts words.now) in MatchOption result (IsTwice a) (λ g. a ≡ kept g) }
{
    let mut given = Given {
        word: None,
        cores: None,
        order: None,
    };
    let mut rest = words;
    while let [word, after @ ..] = rest {
        let (argument, others) = first(word, after);
        given = match with(given, argument) {
            Some(more) => more,
            None => return None,
        };
        rest = others;
    }
    Some(given)
}
