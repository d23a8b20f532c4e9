//! Looking names up.
ghost use Rattle.std.specs.Prelude.{◌≡◌, map};
ghost use Rattle.operator_names.specs.Names.{named, op1_named, op2_named};

use knox_words::{Op1, Op2};

static OP1_NAMES: [(&[u8], Op1); 7] = [
    (b"not", Op1::Not),
    (b"inc", Op1::Inc),
    (b"dec", Op1::Dec),
    (b"neg", Op1::Neg),
    (b"redand", Op1::Redand),
    (b"redor", Op1::Redor),
    (b"redxor", Op1::Redxor),
];

static OP2_NAMES: [(&[u8], Op2); 32] = [
    (b"iff", Op2::Iff),
    (b"implies", Op2::Implies),
    (b"eq", Op2::Eq),
    (b"neq", Op2::Neq),
    (b"ugt", Op2::Ugt),
    (b"ugte", Op2::Ugte),
    (b"ult", Op2::Ult),
    (b"ulte", Op2::Ulte),
    (b"sgt", Op2::Sgt),
    (b"sgte", Op2::Sgte),
    (b"slt", Op2::Slt),
    (b"slte", Op2::Slte),
    (b"and", Op2::And),
    (b"nand", Op2::Nand),
    (b"nor", Op2::Nor),
    (b"or", Op2::Or),
    (b"xnor", Op2::Xnor),
    (b"xor", Op2::Xor),
    (b"sll", Op2::Sll),
    (b"srl", Op2::Srl),
    (b"sra", Op2::Sra),
    (b"rol", Op2::Rol),
    (b"ror", Op2::Ror),
    (b"add", Op2::Add),
    (b"sub", Op2::Sub),
    (b"mul", Op2::Mul),
    (b"udiv", Op2::Udiv),
    (b"sdiv", Op2::Sdiv),
    (b"urem", Op2::Urem),
    (b"srem", Op2::Srem),
    (b"smod", Op2::Smod),
    (b"concat", Op2::Concat),
];

/// What a word names by a table: what its first entry of that name has. `None` exactly where there
/// is no such entry.
pub fn named<T: Copy>(table: &[(&[u8], T)], word: &[u8]) -> Option<T>
    ensures { result ≡ named (map (λ e. (e.0.now, e.1)) table.now) word.now }
{
    for k in 0..table.len() {
        if word == table[k].0 {
            return Some(table[k].1);
        }
    }
    None
}

/// The operator with one operand that a word names. `None` exactly where it names none.
pub fn op1_named(word: &[u8]) -> Option<Op1>
    ensures { result ≡ op1_named word.now }
{
    named(&OP1_NAMES, word)
}

/// The operator with two operands that a word names. `None` exactly where it names none.
pub fn op2_named(word: &[u8]) -> Option<Op2>
    ensures { result ≡ op2_named word.now }
{
    named(&OP2_NAMES, word)
}
