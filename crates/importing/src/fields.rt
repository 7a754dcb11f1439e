// The fields of a line.
ghost use Rattle.std.specs.Prelude.{◌≡◌};
ghost use Rattle.tables.specs.Fields.{fields_of};
ghost use Rattle.importing.specs.Splitting.{field_size, field_end, first_field, after_field, counted};

// What ends the first field of a line.
#[derive(Clone, Copy)]
pub(crate) enum FieldEnd {
    // A comma: another field follows.
    Comma,
    // The line's end.
    Line,
    // The quoting fails.
    Wrong,
}

// The bytes before the quote that ends a field, or all where none does.
#[tactic(auto, using(crate::proofs::Sizes::no_field, crate::proofs::Sizes::field_goes_on, crate::proofs::Sizes::quote_doubled, crate::proofs::Sizes::field_ends))]
fn field_size(bytes: &[u8]) -> usize
    ensures { result ≡ field_size bytes.now }
{
    let mut left = bytes;
    while let Some(first) = left.first() {
        if *first != b'"' {
            left = octets::bytes_after(left, 1);
        } else if octets::byte_at(left, 1) == b'"' {
            left = octets::bytes_after(left, 2);
        } else {
            return bytes.len() - left.len();
        }
    }
    bytes.len()
}

fn field_end(line: &[u8]) -> FieldEnd
    ensures { result ≡ field_end line.now }
{
    if octets::byte_at(line, 0) != b'"' {
        return FieldEnd::Wrong;
    }
    let bytes = octets::bytes_after(line, 1);
    let closing = octets::bytes_after(bytes, field_size(bytes));
    match closing {
        [_] => FieldEnd::Line,
        [_, b',', ..] => FieldEnd::Comma,
        _ => FieldEnd::Wrong,
    }
}

// The first field, as it stands between its quotes.
pub(crate) fn first_field(line: &[u8]) -> &[u8]
    ensures { result.now ≡ first_field line.now }
{
    let bytes = octets::bytes_after(line, 1);
    octets::first_bytes(bytes, field_size(bytes))
}

// What stands after it, its quotes and its comma.
pub(crate) fn after_field(line: &[u8]) -> &[u8]
    ensures { result.now ≡ after_field line.now }
{
    let bytes = octets::bytes_after(line, 1);
    let closing = octets::bytes_after(bytes, field_size(bytes));
    octets::bytes_after(closing, 2)
}

// How many fields a line has; none where the quoting fails.
#[tactic(auto, using(crate::proofs::Splits::less_left, crate::proofs::Splits::count_comma, crate::proofs::Splits::count_line, crate::proofs::Splits::count_wrong))]
pub(crate) fn count_fields(line: &[u8]) -> Option<usize>
    ensures { result ≡ counted 0 (fields_of line.now) }
{
    let mut count: usize = 0;
    let mut rest = line;
    loop {
        match field_end(rest) {
            FieldEnd::Comma => {
                count += 1;
                rest = after_field(rest);
            }
            FieldEnd::Line => return Some(count + 1),
            FieldEnd::Wrong => return None,
        }
    }
}
