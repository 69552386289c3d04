ghost use Rattle.std.specs.Prelude.{◌≡◌, ◌+◌, ◌^◌, ◌<◌, ◌≤◌, [], ◌∷◌, IfNone, IfSome, drop, find, length, option_map};
ghost use Rattle.std.specs.List.{list_any, position_or_len, prefix_len};
ghost use Rattle.kd_check.specs.Place.{after_first, after_string, after_white, an_item, depth_behind, has_key, is_closing, is_escaping, is_slash, is_white, item_numbered, member_named, member_with_key, members, named_by, named_in, path_place, segments_of, value_of_member};
ghost use Rattle.serde_json.specs.Find.{index_of};

use fast_float::Numeral;

/// Finds where the key or the item that a path (RFC 6901) ends with stands in a JSON text: its
/// first byte, counted from 0. Comments must have been blanked before. An empty path and the path
/// `-` lead to the whole value. A key with escapes is not found, in the text or in the path.
pub fn place_of(text: &[u8], path: &str) -> Option<usize>
    ensures place { result ≡ path_place text.now path.now }
    ensures named { option_map (λ place. drop place text.now) result
        ≡ named_in text.now path.now }
    ensures within { IfSome result (λ place. place < length text.now) }
{
    let rest = rest_named(text, path.as_bytes())?;
    Some(text.len() - rest.len())
}

// Returns the rest of a text from what a path names in it.
fn rest_named<'t>(text: &'t [u8], path: &[u8]) -> Option<&'t [u8]>
    ensures named { option_map (λ rest. rest.now) result ≡ named_in text.now path.now }
    ensures some { IfSome result (λ rest. 0 < length rest.now) }
    ensures within { IfSome result (λ rest. length rest.now ≤ length text.now) }
{
    let whole = skip_white(text);
    match path {
        [] | [b'-'] if whole.is_empty() => None,
        [] | [b'-'] => Some(whole),
        [b'/', segments @ ..] => walk(whole, segments),
        _ => None,
    }
}

// Goes from a member along the segments of a path.
fn walk<'t>(whole: &'t [u8], segments: &[u8]) -> Option<&'t [u8]>
    ensures named { option_map (λ rest. rest.now) result
        ≡ named_by (segments_of segments.now) whole.now }
    ensures some { IfSome result (λ rest. 0 < length rest.now) }
    ensures within { IfSome result (λ rest. length rest.now ≤ length whole.now) }
{
    let mut member = whole;
    let mut path = segments;
    'segments: loop {
        let (segment, more) = cut_segment(path);
        member = find_member(skip_key(member), segment)?;
        match more {
            Some(more) => path = more,
            None => return Some(member),
        }
    }
}

// Cuts off the first segment of a path, and what follows its `/`, if it has one.
fn cut_segment(path: &[u8]) -> (&[u8], Option<&[u8]>)
    ensures last { IfNone result.1 (segments_of path.now ≡ result.0.now ∷ []) }
    ensures more { IfSome result.1 (λ more. segments_of path.now
        ≡ result.0.now ∷ segments_of more.now) }
    ensures shorter { IfSome result.1 (λ more. length more.now < length path.now) }
{
    let (segment, behind) = path.split_at(segment_size(path));
    match behind.split_first() {
        Some((_, more)) => (segment, Some(more)),
        None => (segment, None),
    }
}

// Returns how many bytes of a path come before the first `/`: all if there is none.
fn segment_size(path: &[u8]) -> usize
    ensures size { result ≡ position_or_len is_slash path.now }
    ensures within { result ≤ length path.now }
{
    path.iter().take_while(|byte| **byte != b'/').count()
}

// Finds the member of a value that a segment of a path names.
fn find_member<'t>(value: &'t [u8], segment: &[u8]) -> Option<&'t [u8]>
    ensures named { option_map (λ rest. rest.now) result ≡ member_named segment.now value.now }
    ensures some { IfSome result (λ rest. 0 < length rest.now) }
    ensures within { IfSome result (λ rest. length rest.now ≤ length value.now) }
{
    match value {
        [b'{', content @ ..] => find_key(content, segment),
        [b'[', content @ ..] => find_item(content, parse_index(segment)?),
        _ => None,
    }
}

// Finds the member with a key in what follows the opening bracket of an object.
fn find_key<'t>(content: &'t [u8], key: &[u8]) -> Option<&'t [u8]>
    ensures named { option_map (λ rest. rest.now) result ≡ member_with_key key.now content.now }
    ensures some { IfSome result (λ rest. 0 < length rest.now) }
    ensures within { IfSome result (λ rest. length rest.now ≤ length content.now) }
{
    if has_escape(key) {
        return None;
    }
    find_plain_key(content, key)
}

// Finds the member with a key that has no escapes.
fn find_plain_key<'t>(content: &'t [u8], key: &[u8]) -> Option<&'t [u8]>
    ensures named { option_map (λ rest. rest.now) result
        ≡ find (has_key key.now) (members content.now) }
    ensures some { IfSome result (λ rest. 0 < length rest.now) }
    ensures within { IfSome result (λ rest. length rest.now ≤ length content.now) }
{
    let mut rest = content;
    'members: loop {
        let member = skip_white(rest);
        if begins_with_key(member, key) {
            return Some(member);
        }
        rest = skip_member(rest)?;
    }
}

// Whether a key has a byte with a meaning of its own in a string or in a path.
fn has_escape(key: &[u8]) -> bool
    ensures { result ≡ list_any is_escaping key.now }
{
    key.iter()
        .any(|byte| *byte == b'"' || *byte == b'\\' || *byte == b'~')
}

// Whether a member begins with a key.
fn begins_with_key(member: &[u8], key: &[u8]) -> bool
    ensures value { result ≡ has_key key.now member.now }
{
    let Some((first, rest)) = member.split_first() else {
        return false;
    };
    *first == b'"' && rest.starts_with(key) && rest[key.len()..].starts_with(b"\"")
}

// Finds the item with a number in what follows the opening bracket of an array.
fn find_item(content: &[u8], number: usize) -> Option<&[u8]>
    ensures named { option_map (λ rest. rest.now) result ≡ item_numbered content.now number }
    ensures some { IfSome result (λ rest. 0 < length rest.now) }
    ensures within { IfSome result (λ rest. length rest.now ≤ length content.now) }
{
    let mut rest = content;
    for _ in 0..number {
        rest = skip_member(rest)?;
    }
    item_in(skip_white(rest))
}

// Returns a text in which an item begins.
fn item_in(text: &[u8]) -> Option<&[u8]>
    ensures named { option_map (λ rest. rest.now) result ≡ an_item text.now }
    ensures some { IfSome result (λ rest. 0 < length rest.now) }
    ensures within { IfSome result (λ rest. length rest.now ≤ length text.now) }
{
    match text {
        [] | [b']', ..] => None,
        _ => Some(text),
    }
}

// Returns the number of an item that a segment of a path is in decimal.
fn parse_index(segment: &[u8]) -> Option<usize>
    ensures { result ≡ index_of segment.now }
{
    let numeral = Numeral::scan(segment);
    let number = numeral.to_u64()?;
    let has_zeros = segment.len() > 1 && segment[0] == b'0';
    if numeral.len() == segment.len() && !has_zeros {
        Some(number as usize)
    } else {
        None
    }
}

// Returns the value of a member.
fn skip_key(member: &[u8]) -> &[u8]
    ensures value { result.now ≡ value_of_member member.now }
    ensures within { length result.now ≤ length member.now }
{
    let [b'"', string @ ..] = member else {
        return member;
    };
    match skip_white(skip_string(string)) {
        [b':', value @ ..] => skip_white(value),
        _ => member,
    }
}

// Returns what follows the next comma of the container that a text is in, if it has one before the
// container's closing bracket.
fn skip_member(text: &[u8]) -> Option<&[u8]>
    ensures last { IfNone result (members text.now ≡ after_white text.now ∷ []) }
    ensures next { IfSome result (λ rest. members text.now
        ≡ after_white text.now ∷ members rest.now) }
    ensures shorter { IfSome result (λ rest. length rest.now < length text.now) }
{
    let mut depth: usize = 0;
    let mut rest = text;
    'rests: while let Some((first, behind)) = rest.split_first() {
        if depth == 0 && is_closing_bracket(*first) {
            return None;
        }
        if depth == 0 && *first == b',' {
            return Some(behind);
        }
        depth = nested(*first, depth);
        rest = skip_first(*first, behind);
    }
    None
}

// Returns how many brackets are open behind a byte.
fn nested(byte: u8, depth: usize) -> usize
    requires { depth + 1 < 2 ^ 64 }
    ensures value { result ≡ depth_behind byte depth }
    ensures within { result ≤ depth + 1 }
{
    if byte == b'[' || byte == b'{' {
        depth + 1
    } else if is_closing_bracket(byte) {
        depth.saturating_sub(1)
    } else {
        depth
    }
}

// Whether a byte closes an array or an object.
fn is_closing_bracket(byte: u8) -> bool
    ensures { result ≡ is_closing byte }
{
    byte == b']' || byte == b'}'
}

// Returns what follows the string or the other byte that a text begins with.
fn skip_first(first: u8, behind: &[u8]) -> &[u8]
    ensures value { result.now ≡ after_first first behind.now }
    ensures within { length result.now ≤ length behind.now }
{
    if first == b'"' {
        skip_string(behind)
    } else {
        behind
    }
}

// Returns what follows a string whose first quotation mark is before the text.
fn skip_string(text: &[u8]) -> &[u8]
    ensures value { result.now ≡ after_string text.now }
    ensures within { length result.now ≤ length text.now }
{
    let mut rest = text;
    while let [first, behind @ ..] = rest {
        if *first == b'"' {
            return behind;
        }
        rest = match behind {
            [_, further @ ..] if *first == b'\\' => further,
            _ => behind,
        };
    }
    rest
}

// Returns what follows the white space that a text begins with.
fn skip_white(text: &[u8]) -> &[u8]
    ensures value { result.now ≡ after_white text.now }
    ensures within { length result.now ≤ length text.now }
{
    let (_, rest) = text.split_at(count_white(text));
    rest
}

// Returns how many bytes of white space a text begins with.
fn count_white(text: &[u8]) -> usize
    ensures size { result ≡ prefix_len is_white text.now }
    ensures within { result ≤ length text.now }
{
    text.iter().take_while(|byte| is_blank(**byte)).count()
}

// Whether a byte is white space.
fn is_blank(byte: u8) -> bool
    ensures { result ≡ is_white byte }
{
    byte == b' ' || byte == b'\t' || byte == b'\n' || byte == b'\r'
}
