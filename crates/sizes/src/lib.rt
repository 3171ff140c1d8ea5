// Sizes that a caller needs before a call, since an operation refuses with 8 a buffer that is not of its exact length. Three fields of two types:
// one function for all would be no shorter. An opening is taken apart by `let .. else`, not by `?`: a rule of this project.
#![tactic(auto)]

ghost use Rattle.std.specs.Prelude.{◌≡◌};
ghost use Rattle.definitions.specs.Sizes.{code_cells, stack_cells, stack_symbols};
ghost use Rattle.answers.specs.Answering.{answer_of};

use answers::Refusal;
use opening::Code;
use stack_opening::Stack;

// The cells of a code, and the symbols of its message.
#[tactic(auto, unfolding(definitions::specs::Sizes::code_cells))]
pub fn code_cells(body: &[u8]) -> Result<usize, Refusal>
    ensures { answer_of result ≡ code_cells body.now }
{
    let opened = Code::open(body);
    let Ok(code) = opened else {
        return Err(opened.unwrap_err());
    };
    Ok(code.n)
}

// The cells of a stack.
#[tactic(auto, unfolding(definitions::specs::Sizes::stack_cells))]
pub fn stack_cells(body: &[u8]) -> Result<usize, Refusal>
    ensures { answer_of result ≡ stack_cells body.now }
{
    let opened = Stack::open(body);
    let Ok(stack) = opened else {
        return Err(opened.unwrap_err());
    };
    Ok(stack.n)
}

// The digits of a stack's message.
#[tactic(auto, unfolding(definitions::specs::Sizes::stack_symbols))]
pub fn stack_symbols(body: &[u8]) -> Result<usize, Refusal>
    ensures { answer_of result ≡ stack_symbols body.now }
{
    let opened = Stack::open(body);
    let Ok(stack) = opened else {
        return Err(opened.unwrap_err());
    };
    Ok(stack.symbols)
}
