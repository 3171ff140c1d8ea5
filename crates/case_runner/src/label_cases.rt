// The operations on labels.
use crate::fields::Call;
use crate::printing::Answer;

// The answer, if the name is one of these operations'. The kind of a labeling stands where other operations have a body.
pub fn run(call: &Call, out: &mut [u8]) -> Option<Answer> {
    Some(match (call.name, call.body) {
        (b"make_labels", [kind]) => Answer::written(labeling::make_labels(usize::from(*kind), out)),
        (b"make_labels", _) => Answer::Message("one kind is wanted"),
        (b"to_levels", _) => Answer::written(labeling::to_levels(call.body, call.input, out)),
        (b"to_states", _) => Answer::written(labeling::to_states(call.body, call.input, out)),
        _ => return None,
    })
}
