//! How many parameters a descriptor has.
ghost use Rattle.std.specs.Prelude.{◌≡◌, ◌≤◌, ◌==◌, not, length, drop, take_while};
ghost use Rattle.std.specs.Option.{option_map};
ghost use Rattle.class_model.specs.Characters.{semicolon};
ghost use Rattle.class_model.specs.Descriptors.{brackets, element_len, parameters_of};
ghost use Rattle.inline_expand.specs.Inner.ParameterLists.{behind_parameter};

/// How many parameters the text of a method descriptor has (JVM Specification SE 8, 4.3.3).
pub(crate) fn parameter_count(desc: &[u8]) -> usize
    ensures { result ≡ length (parameters_of desc.now) }
{
    let mut count = 0;
    let mut rest = behind(desc, 1);
    while let Some(after) = behind_parameter(rest) {
        count += 1;
        rest = after;
    }
    count
}

// The bytes behind the parameter at the front, if one stands there.
fn behind_parameter(bytes: &[u8]) -> Option<&[u8]>
    ensures { option_map (λ rest. rest.now) result ≡ behind_parameter bytes.now }
{
    let first = bytes.first()?;
    if *first == b')' {
        return None;
    }
    let brackets = brackets(bytes);
    let element = behind(bytes, brackets);
    Some(behind(element, element_len(element)))
}

// How many brackets stand at the front.
fn brackets(bytes: &[u8]) -> usize
    ensures { result ≡ brackets bytes.now }
{
    bytes.iter().take_while(|byte| **byte == b'[').count()
}

// How many bytes the type at the front takes, if it is that of no array.
fn element_len(bytes: &[u8]) -> usize
    ensures { result ≡ element_len bytes.now }
{
    let Some((first, rest)) = bytes.split_first() else {
        return 0;
    };
    if *first == b'L' {
        name_len(rest) + 2
    } else {
        1
    }
}

// How many bytes stand before the first semicolon.
fn name_len(bytes: &[u8]) -> usize
    ensures len { result ≡ length (take_while (λ b. not (b == semicolon)) bytes.now) }
    ensures within { result ≤ length bytes.now }
{
    bytes.iter().take_while(|byte| **byte != b';').count()
}

// The bytes behind so many, none where there are fewer.
fn behind(bytes: &[u8], count: usize) -> &[u8]
    ensures { result.now ≡ drop count bytes.now }
{
    &bytes[count.min(bytes.len())..]
}
