// The C boundary: each function of fingerkerf under its own name. A slice is a pointer, then a length; null with length 0 is taken. Each stands
// here again, since C needs an export of its name, and a crate is a library or a static library, not both.
#![tactic(auto)]

ghost use Rattle.std.specs.Prelude.{◌≡◌, length};
ghost use Rattle.definitions.specs.Codes.{code_of};
ghost use Rattle.definitions.specs.Acceptance.{Accepted};
ghost use Rattle.definitions.specs.CodeOperations.{test_code, encode_code, decode_code, recover_code};
ghost use Rattle.definitions.specs.Tried.{tried_code, GivenAt};
ghost use Rattle.definitions.specs.Answers.{given};
ghost use Rattle.definitions.specs.StackCodewords.{StackCodeword, AcceptedStack};
ghost use Rattle.definitions.specs.StackMessages.{StackMessage, message_length};
ghost use Rattle.definitions.specs.StackOperations.{test_stack, encode_stack, decode_stack, recover_stack};
ghost use Rattle.definitions.specs.Images.{body_of, check_image, read_row};
ghost use Rattle.definitions.specs.Labels.{Permutation};
ghost use Rattle.definitions.specs.LabelOperations.{make_labels, to_levels, to_states, GoesBack};
ghost use Rattle.definitions.specs.PackingOperations.{pack_code, unpack_code, Packed, Unpacked};
ghost use Rattle.definitions.specs.MessageNumberOperations.{message_of_number, number_of_message, MessageMade, NumberMade};
ghost use Rattle.definitions.specs.Sizes.{code_cells, stack_cells, stack_symbols, packed_bytes, row_cells};
ghost use Rattle.definitions.specs.Demands.{of_code, of_stack, Tested, OneCodeword, Recovered, DistanceDecides, SomeCodeword};
ghost use Rattle.definitions.specs.Demands.{GivenWithinReach, KeepsMessages};
ghost use Rattle.definitions.specs.Golay.{golay_code, golay_body, decode_golay};
ghost use Rattle.golay.specs.Clauses.{WhereGolay, WhereGolayReads};
ghost use Rattle.codec.specs.CodeClauses.{WhereCodeOpens, WhereWritable, WhereCodeword, WhereCodeReads, WhereCodeAccepted};
ghost use Rattle.codec.specs.StackClauses.{WhereStackOpens, WhereStackReads, WhereStackAccepted};
ghost use Rattle.row_reading.specs.RowClauses.{WherePlanRow, WhereStackRow, RecordDecides};
ghost use Rattle.row_numbers.specs.RowNumbers.{RowNumbered, row_by};
ghost use Rattle.packing.specs.Packing.{WherePacked, WhereUnpacked};
ghost use Rattle.message_numbers.specs.Numbering.{WhereNumber, WhereMessage};
ghost use Rattle.numbered_answers.specs.Numbers.{number_of, count_of, ReadNumbered, SizeNumbered, ValueNumbered, answer_by, count_by};

use numbered_answers::{Reading, Size, Value};
use row_numbers::RowNumbers;

// Test a plan.
#[unsafe(no_mangle)]
pub extern "C" fn levels_test(body: &[u8]) -> usize
    ensures number { result ≡ number_of (test_code body.now) }
    ensures accepted { WhereCodeOpens body.now (λ p. Tested (Accepted p) (answer_by result)) }
{
    fingerkerf::levels_test(body)
}

// Write a message of a plan.
#[unsafe(no_mangle)]
pub extern "C" fn levels_encode(body: &[u8], message: &[u8], out: &mut [u8]) -> usize
    ensures number { result ≡ number_of (encode_code body.now message.now out.old).answer }
    ensures buffer { out.new ≡ (encode_code body.now message.now out.old).out }
    ensures one_codeword { WhereWritable body.now message.now out.old
        (λ p. OneCodeword (of_code p) message.now (answer_by result) out.new) }
{
    fingerkerf::levels_encode(body, message, out)
}

// Read a row of a plan.
#[unsafe(no_mangle)]
pub extern "C" fn levels_decode(body: &[u8], word: &[u8], out: &mut [u8]) -> Reading
    ensures numbers { ReadNumbered (decode_code body.now word.now out.old).answer result }
    ensures buffer { out.new ≡ (decode_code body.now word.now out.old).out }
    ensures tried { result.tried ≡ count_of (tried_code body.now word.now out.old) }
    ensures tried_is_place { result.number ≡ 0 → GivenAt (code_of body.now) word.now out.new result.tried }
    ensures distance_decides { WhereCodeAccepted body.now word.now out.old
        (λ p. DistanceDecides (of_code p) word.now (count_by result.number result.count) out.new) }
    ensures some_codeword { WhereCodeReads body.now word.now out.old
        (λ p. SomeCodeword (of_code p) word.now (count_by result.number result.count) out.new) }
    ensures keeps_messages { WhereCodeAccepted body.now word.now out.old
        (λ p. KeepsMessages (of_code p) word.now (count_by result.number result.count) out.new) }
{
    fingerkerf::levels_decode(body, word, out)
}

// Read a word of the 23-cell Golay code of q levels by the table of its patterns: no description is taken, and no pattern is tried.
#[unsafe(no_mangle)]
pub extern "C" fn levels_decode_golay(q: usize, word: &[u8], out: &mut [u8]) -> Reading
    ensures numbers { ReadNumbered (decode_golay q word.now out.old).answer result }
    ensures buffer { out.new ≡ (decode_golay q word.now out.old).out }
    ensures tried { result.tried ≡ 0 }
    ensures as_by_search { WhereGolay q
        (ReadNumbered (decode_code (golay_body q) word.now out.old).answer result
        × (out.new ≡ (decode_code (golay_body q) word.now out.old).out)) }
    ensures distance_decides { WhereGolayReads q word.now out.old
        (DistanceDecides (of_code (golay_code q)) word.now (count_by result.number result.count) out.new) }
    ensures keeps_messages { WhereGolayReads q word.now out.old
        (KeepsMessages (of_code (golay_code q)) word.now (count_by result.number result.count) out.new) }
{
    fingerkerf::levels_decode_golay(q, word, out)
}

// Recover the message of a plan's codeword.
#[unsafe(no_mangle)]
pub extern "C" fn levels_recover(body: &[u8], word: &[u8], out: &mut [u8]) -> usize
    ensures number { result ≡ number_of (recover_code body.now word.now out.old).answer }
    ensures buffer { out.new ≡ (recover_code body.now word.now out.old).out }
    ensures recovered { WhereCodeword body.now word.now out.old
        (λ p. Recovered (of_code p) word.now (answer_by result) out.new) }
{
    fingerkerf::levels_recover(body, word, out)
}

// Test a stack.
#[unsafe(no_mangle)]
pub extern "C" fn levels_test_stack(body: &[u8]) -> usize
    ensures number { result ≡ number_of (test_stack body.now) }
    ensures accepted { WhereStackOpens body.now (λ S. Tested (AcceptedStack S) (answer_by result)) }
{
    fingerkerf::levels_test_stack(body)
}

// Write a message of a stack.
#[unsafe(no_mangle)]
pub extern "C" fn levels_encode_stack(body: &[u8], message: &[u8], out: &mut [u8]) -> usize
    ensures number { result ≡ number_of (encode_stack body.now message.now out.old).answer }
    ensures buffer { out.new ≡ (encode_stack body.now message.now out.old).out }
    ensures one_codeword { WhereStackOpens body.now (λ S.
        StackMessage S message.now → length out.old ≡ S.n
        → OneCodeword (of_stack S) message.now (answer_by result) out.new) }
{
    fingerkerf::levels_encode_stack(body, message, out)
}

// Read a row of a stack.
#[unsafe(no_mangle)]
pub extern "C" fn levels_decode_stack(body: &[u8], word: &[u8], out: &mut [u8]) -> Reading
    ensures numbers { ReadNumbered (decode_stack body.now word.now out.old).answer result }
    ensures buffer { out.new ≡ (decode_stack body.now word.now out.old).out }
    ensures tried { result.tried ≡ 0 }
    ensures distance_decides { WhereStackAccepted body.now word.now out.old
        (λ S. DistanceDecides (of_stack S) word.now (count_by result.number result.count) out.new) }
    ensures within_reach { WhereStackReads body.now word.now out.old
        (λ S. GivenWithinReach (of_stack S) word.now (count_by result.number result.count) out.new) }
    ensures keeps_messages { WhereStackAccepted body.now word.now out.old
        (λ S. KeepsMessages (of_stack S) word.now (count_by result.number result.count) out.new) }
{
    fingerkerf::levels_decode_stack(body, word, out)
}

// Recover the message of a stack's codeword.
#[unsafe(no_mangle)]
pub extern "C" fn levels_recover_stack(body: &[u8], word: &[u8], out: &mut [u8]) -> usize
    ensures number { result ≡ number_of (recover_stack body.now word.now out.old).answer }
    ensures buffer { out.new ≡ (recover_stack body.now word.now out.old).out }
    ensures recovered { WhereStackOpens body.now (λ S.
        StackCodeword S word.now → length out.old ≡ message_length S.planes
        → Recovered (of_stack S) word.now (answer_by result) out.new) }
{
    fingerkerf::levels_recover_stack(body, word, out)
}

// Make labels: the table's length is q. The kind is a number, as C has it.
#[unsafe(no_mangle)]
pub extern "C" fn levels_make_labels(kind: usize, table: &mut [u8]) -> usize
    ensures number { result ≡ number_of (make_labels kind table.old).answer }
    ensures buffer { table.new ≡ (make_labels kind table.old).out }
    ensures permutation { answer_by result ≡ given tt → Permutation table.new }
{
    fingerkerf::levels_make_labels(kind, table)
}

// Apply labels from states to levels.
#[unsafe(no_mangle)]
pub extern "C" fn levels_to_levels(table: &[u8], states: &[u8], levels: &mut [u8]) -> usize
    ensures number { result ≡ number_of (to_levels table.now states.now levels.old).answer }
    ensures buffer { levels.new ≡ (to_levels table.now states.now levels.old).out }
    ensures back { GoesBack (to_states table.now) states.now (answer_by result) levels.new }
{
    fingerkerf::levels_to_levels(table, states, levels)
}

// Apply labels from levels to states.
#[unsafe(no_mangle)]
pub extern "C" fn levels_to_states(table: &[u8], levels: &[u8], states: &mut [u8]) -> usize
    ensures number { result ≡ number_of (to_states table.now levels.now states.old).answer }
    ensures buffer { states.new ≡ (to_states table.now levels.now states.old).out }
    ensures back { GoesBack (to_levels table.now) levels.now (answer_by result) states.new }
{
    fingerkerf::levels_to_states(table, levels, states)
}

// A plan's message to bytes.
#[unsafe(no_mangle)]
pub extern "C" fn levels_pack(body: &[u8], message: &[u8], bytes: &mut [u8]) -> usize
    ensures number { result ≡ number_of (pack_code body.now message.now bytes.old).answer }
    ensures buffer { bytes.new ≡ (pack_code body.now message.now bytes.old).out }
    ensures packed { WherePacked body.now message.now bytes.old
        (λ p. Packed body.now p message.now (answer_by result) bytes.new) }
{
    fingerkerf::levels_pack(body, message, bytes)
}

// A plan's message from bytes, whose leftover bits must be 0.
#[unsafe(no_mangle)]
pub extern "C" fn levels_unpack(body: &[u8], bytes: &[u8], message: &mut [u8]) -> usize
    ensures number { result ≡ number_of (unpack_code body.now bytes.now message.old).answer }
    ensures buffer { message.new ≡ (unpack_code body.now bytes.now message.old).out }
    ensures unpacked { WhereUnpacked body.now bytes.now message.old
        (λ p. Unpacked body.now p bytes.now (answer_by result) message.new) }
{
    fingerkerf::levels_unpack(body, bytes, message)
}

// A plan's message from a number.
#[unsafe(no_mangle)]
pub extern "C" fn levels_message_of_number(body: &[u8], value: u64, message: &mut [u8]) -> usize
    ensures number { result ≡ number_of (message_of_number body.now value message.old).answer }
    ensures buffer { message.new ≡ (message_of_number body.now value message.old).out }
    ensures made { WhereNumber body.now value message.old
        (λ p. MessageMade body.now p value (answer_by result) message.new) }
{
    fingerkerf::levels_message_of_number(body, value, message)
}

// The number of a plan's message.
#[unsafe(no_mangle)]
pub extern "C" fn levels_number_of_message(body: &[u8], message: &[u8]) -> Value
    ensures numbers { ValueNumbered (number_of_message body.now message.now) result }
    ensures made { WhereMessage body.now message.now
        (λ p. NumberMade body.now p message.now (count_by result.number result.value)) }
{
    fingerkerf::levels_number_of_message(body, message)
}

// Check an image.
#[unsafe(no_mangle)]
pub extern "C" fn levels_check_image(image: &[u8]) -> usize
    ensures { result ≡ number_of (check_image image.now) }
{
    fingerkerf::levels_check_image(image)
}

// Read a row entry of an image.
#[unsafe(no_mangle)]
pub extern "C" fn levels_read_row(image: &[u8], entry: usize, out: &mut [u8]) -> RowNumbers
    ensures numbers { RowNumbered (read_row image.now entry out.old).answer result }
    ensures buffer { out.new ≡ (read_row image.now entry out.old).out }
    ensures plan_decides { WherePlanRow image.now entry out.old
        (λ p. RecordDecides (of_code p) (body_of image.now entry) entry (row_by result.number result) out.new) }
    ensures stack_decides { WhereStackRow image.now entry out.old
        (λ S. RecordDecides (of_stack S) (body_of image.now entry) entry (row_by result.number result) out.new) }
{
    fingerkerf::levels_read_row(image, entry, out)
}

// The cells of a plan, and the symbols of its message.
#[unsafe(no_mangle)]
pub extern "C" fn levels_code_cells(body: &[u8]) -> Size
    ensures { SizeNumbered (code_cells body.now) result }
{
    fingerkerf::levels_code_cells(body)
}

// The bytes of a plan's packed message.
#[unsafe(no_mangle)]
pub extern "C" fn levels_packed_bytes(body: &[u8]) -> Size
    ensures { SizeNumbered (packed_bytes body.now) result }
{
    fingerkerf::levels_packed_bytes(body)
}

// The cells of a stack.
#[unsafe(no_mangle)]
pub extern "C" fn levels_stack_cells(body: &[u8]) -> Size
    ensures { SizeNumbered (stack_cells body.now) result }
{
    fingerkerf::levels_stack_cells(body)
}

// The digits of a stack's message.
#[unsafe(no_mangle)]
pub extern "C" fn levels_stack_symbols(body: &[u8]) -> Size
    ensures { SizeNumbered (stack_symbols body.now) result }
{
    fingerkerf::levels_stack_symbols(body)
}

// The cells of the plan or stack that a row entry refers to.
#[unsafe(no_mangle)]
pub extern "C" fn levels_row_cells(image: &[u8], entry: usize) -> Size
    ensures { SizeNumbered (row_cells image.now entry) result }
{
    fingerkerf::levels_row_cells(image, entry)
}
