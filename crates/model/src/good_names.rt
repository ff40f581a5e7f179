//! Which words are names of classes and members (JVMS 4.2).
ghost use Rattle.std.specs.Prelude.{◌≡◌, false};
ghost use Rattle.std.specs.List.{list_all};
ghost use Rattle.model.specs.Texts.Names.{fits, is_part, joins, are_parts, is_class_name, is_field_name};
ghost use Rattle.model.specs.Texts.Names.{is_method_name, begins_part, continues_part};

/// Whether a word is a class's name: parts joined by slashes, of 65,535 bytes at most.
pub fn is_class_name(word: &[u8]) -> bool
    ensures { result ≡ is_class_name word.now }
{
    fits(word) && are_parts(word)
}

/// Whether a word is a method's name: one part, `<init>` or `<clinit>`, of 65,535 bytes at most.
pub fn is_method_name(word: &[u8]) -> bool
    ensures { result ≡ is_method_name word.now }
{
    word == b"<init>".as_slice() || word == b"<clinit>".as_slice() || is_field_name(word)
}

/// Whether a word is a field's name: one part, of 65,535 bytes at most.
pub fn is_field_name(word: &[u8]) -> bool
    ensures { result ≡ is_field_name word.now }
{
    fits(word) && is_part(word)
}

/// Whether a word is one part: a letter, `_` or `$`, and after it also digits.
pub fn is_part(word: &[u8]) -> bool
    ensures { result ≡ is_part word.now }
{
    match word {
        [first, rest @ ..] => begins_part(*first) && continue_part(rest),
        [] => false,
    }
}

/// Whether each byte may stand in a part after the first one.
fn continue_part(bytes: &[u8]) -> bool
    ensures { result ≡ list_all continues_part bytes.now }
{
    bytes.iter().all(|b| continues_part(*b))
}

/// Whether a word is parts joined by slashes.
pub fn are_parts(word: &[u8]) -> bool
    ensures { result ≡ are_parts false word.now }
{
    let mut begun = false;
    for b in word {
        if !joins(begun, *b) {
            return false;
        }
        begun = *b != b'/';
    }
    begun
}

/// Whether a byte may stand in joined parts, in one that has begun or not.
fn joins(begun: bool, b: u8) -> bool
    ensures { result ≡ joins begun b }
{
    if b == b'/' {
        begun
    } else if begun {
        continues_part(b)
    } else {
        begins_part(b)
    }
}

fn begins_part(b: u8) -> bool
    ensures { result ≡ begins_part b }
{
    b.is_ascii_alphabetic() || b == b'_' || b == b'$'
}

fn continues_part(b: u8) -> bool
    ensures { result ≡ continues_part b }
{
    begins_part(b) || b.is_ascii_digit()
}

/// Names and descriptors have 65,535 bytes at most (JVMS 4.4.7).
pub fn fits(word: &[u8]) -> bool
    ensures { result ≡ fits word.now }
{
    word.len() <= 65_535
}
