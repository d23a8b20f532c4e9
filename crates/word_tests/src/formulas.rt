//! Every operator on all words of widths 1 to 3, against the formulas of BTOR2 and SMT-LIB computed
//! anew on signed 64-bit numbers: sums, products, quotients and powers, and bit by bit for logic.
use knox_words::{Op1, Op2, Word, fits2, op1, op2_or, sext_or, slice_or, uext_or};
use std::test::Fail;

/// 2 to a small power.
fn two_to(n: i64) -> i64 {
    match n {
        0 => 1,
        1 => 2,
        2 => 4,
        3 => 8,
        4 => 16,
        5 => 32,
        6 => 64,
        _ => 128,
    }
}

/// The rest of n by m, from 0 to m - 1.
fn modulo(n: i64, m: i64) -> i64 {
    n.checked_rem_euclid(m).unwrap_or(0)
}

/// The quotient, rounded towards zero.
fn truncated(a: i64, b: i64) -> i64 {
    a.checked_div(b).unwrap_or(0)
}

/// The quotient, rounded down.
fn floored(a: i64, b: i64) -> i64 {
    let quotient = truncated(a, b);
    let exact = quotient.wrapping_mul(b) == a;
    if !exact && (a < 0) != (b < 0) {
        quotient.wrapping_sub(1)
    } else {
        quotient
    }
}

/// The number that a stands for in two's complement.
fn signed(w: i64, a: i64) -> i64 {
    if a < two_to(w.wrapping_sub(1)) {
        a
    } else {
        a.wrapping_sub(two_to(w))
    }
}

/// Bit k of a.
fn bit_of(a: i64, k: i64) -> bool {
    modulo(truncated(a, two_to(k)), 2) == 1
}

/// What an operator on bits makes of two of them.
fn on_bits(o: Op2, x: bool, y: bool) -> bool {
    match o {
        Op2::And => x && y,
        Op2::Nand => !(x && y),
        Op2::Or => x || y,
        Op2::Nor => !(x || y),
        Op2::Xor => x != y,
        _ => x == y,
    }
}

/// An operator on bits, bit by bit.
fn by_bits(o: Op2, w: u8, a: i64, b: i64) -> i64 {
    let mut all: i64 = 0;
    for k in 0..w {
        let k = i64::from(k);
        if on_bits(o, bit_of(a, k), bit_of(b, k)) {
            all = all.wrapping_add(two_to(k));
        }
    }
    all
}

/// The formula of a rotation left by r places.
fn rotated(w: i64, a: i64, r: i64) -> i64 {
    let up = modulo(a.wrapping_mul(two_to(r)), two_to(w));
    up.wrapping_add(truncated(a, two_to(w.wrapping_sub(r))))
}

/// The formula of a shift, a rotation or `concat`.
fn moved(o: Op2, w: i64, a: i64, b: i64, v: i64) -> i64 {
    let m = two_to(w);
    let r = modulo(b, w);
    match o {
        Op2::Sll if b < w => modulo(a.wrapping_mul(two_to(b)), m),
        Op2::Srl if b < w => truncated(a, two_to(b)),
        Op2::Sll | Op2::Srl => 0,
        Op2::Sra => modulo(floored(signed(w, a), two_to(b.min(w))), m),
        Op2::Rol => rotated(w, a, r),
        Op2::Ror => rotated(w, a, modulo(w.wrapping_sub(r), w)),
        _ => a.wrapping_mul(two_to(v)).wrapping_add(b),
    }
}

/// The formula of a sum, a product, a quotient or a remainder.
fn counted(o: Op2, w: i64, a: i64, b: i64) -> i64 {
    let m = two_to(w);
    let (x, y) = (signed(w, a), signed(w, b));
    match o {
        Op2::Add => modulo(a.wrapping_add(b), m),
        Op2::Sub => modulo(a.wrapping_sub(b), m),
        Op2::Mul => modulo(a.wrapping_mul(b), m),
        Op2::Udiv if b == 0 => m.wrapping_sub(1),
        Op2::Udiv => truncated(a, b),
        Op2::Sdiv if b == 0 => if x < 0 { 1 } else { m.wrapping_sub(1) },
        Op2::Sdiv => modulo(truncated(x, y), m),
        Op2::Urem | Op2::Srem | Op2::Smod if b == 0 => a,
        Op2::Urem => modulo(a, b),
        Op2::Srem => modulo(x.wrapping_sub(y.wrapping_mul(truncated(x, y))), m),
        _ => modulo(x.wrapping_sub(y.wrapping_mul(floored(x, y))), m),
    }
}

/// Whether a comparison holds.
fn compared(o: Op2, w: i64, a: i64, b: i64) -> bool {
    let (x, y) = (signed(w, a), signed(w, b));
    match o {
        Op2::Iff | Op2::Eq => a == b,
        Op2::Implies => a == 0 || b == 1,
        Op2::Neq => a != b,
        Op2::Ugt => a > b,
        Op2::Ugte => a >= b,
        Op2::Ult => a < b,
        Op2::Ulte => a <= b,
        Op2::Sgt => x > y,
        Op2::Sgte => x >= y,
        Op2::Slt => x < y,
        _ => x <= y,
    }
}

/// The width and the number that the formula of an operator gives.
fn formula(o: Op2, w: u8, a: i64, v: u8, b: i64) -> (u8, i64) {
    let width = i64::from(w);
    match o {
        Op2::And | Op2::Nand | Op2::Nor | Op2::Or | Op2::Xnor | Op2::Xor => (
            w,
            by_bits(o, w, a, b),
        ),
        Op2::Concat => (w.wrapping_add(v), moved(o, width, a, b, i64::from(v))),
        Op2::Sll | Op2::Srl | Op2::Sra | Op2::Rol | Op2::Ror => (w, moved(o, width, a, b, 0)),
        Op2::Add
        | Op2::Sub
        | Op2::Mul
        | Op2::Udiv
        | Op2::Sdiv
        | Op2::Urem
        | Op2::Srem
        | Op2::Smod => { (w, counted(o, width, a, b)) }
        _ => (1, i64::from(compared(o, width, a, b))),
    }
}

/// The width and the number of a word, if the number is small.
fn seen(a: Word) -> Option<(u8, i64)> {
    let value = i64::try_from(a.value()).ok()?;
    Some((a.width(), value))
}

const OPERATORS: [Op2; 32] = [
    Op2::Iff,
    Op2::Implies,
    Op2::Eq,
    Op2::Neq,
    Op2::Ugt,
    Op2::Ugte,
    Op2::Ult,
    Op2::Ulte,
    Op2::Sgt,
    Op2::Sgte,
    Op2::Slt,
    Op2::Slte,
    Op2::And,
    Op2::Nand,
    Op2::Nor,
    Op2::Or,
    Op2::Xnor,
    Op2::Xor,
    Op2::Sll,
    Op2::Srl,
    Op2::Sra,
    Op2::Rol,
    Op2::Ror,
    Op2::Add,
    Op2::Sub,
    Op2::Mul,
    Op2::Udiv,
    Op2::Sdiv,
    Op2::Urem,
    Op2::Srem,
    Op2::Smod,
    Op2::Concat,
];

/// The words of widths 1 to 3: places 2 to 15 in binary without the leading 1.
fn small_word(place: u8) -> Option<Word> {
    match place {
        2..4 => Word::new(1, u128::from(place) - 2),
        4..8 => Word::new(2, u128::from(place) - 4),
        8..16 => Word::new(3, u128::from(place) - 8),
        _ => None,
    }
}

/// Whether an operator gives what its formula does, or doesn't take the words.
fn agrees(o: Op2, a: Word, b: Word) -> bool {
    let (Some((w, m)), Some((v, n))) = (seen(a), seen(b)) else {
        return false;
    };
    !fits2(o, w, v) || seen(op2_or(o, a, b)) == Some(formula(o, w, m, v, n))
}

#[test]
fn operators_are_their_formulas(rt: HostRuntime) -> Result<(), Fail> {
    for o in OPERATORS {
        for p in 2..16 {
            let a = small_word(p).ok_or("no word")?;
            for q in 2..16 {
                let b = small_word(q).ok_or("no word")?;
                assert!(rt; agrees(o, a, b), "{o:?} of {a:?} and {b:?}");
            }
        }
    }
    Ok(())
}

/// The formula of an operator with one operand.
fn formula_of_one(o: Op1, w: u8, a: i64) -> (u8, i64) {
    let m = two_to(i64::from(w));
    let ones = i64::from(bit_of(a, 0)) + i64::from(bit_of(a, 1)) + i64::from(bit_of(a, 2));
    match o {
        Op1::Not => (w, m.wrapping_sub(1).wrapping_sub(a)),
        Op1::Inc => (w, modulo(a.wrapping_add(1), m)),
        Op1::Dec => (w, modulo(a.wrapping_sub(1), m)),
        Op1::Neg => (w, modulo(a.wrapping_neg(), m)),
        Op1::Redand => (1, i64::from(a == m.wrapping_sub(1))),
        Op1::Redor => (1, i64::from(a != 0)),
        Op1::Redxor => (1, modulo(ones, 2)),
    }
}

/// Whether extensions and slices of a small word are what their formulas give.
fn resizes(a: Word, n: u8, high: u8, low: u8) -> bool {
    let Some((w, m)) = seen(a) else {
        return false;
    };
    let wide = w.wrapping_add(n);
    let extended = modulo(signed(i64::from(w), m), two_to(i64::from(wide)));
    let part = high.wrapping_sub(low).wrapping_add(1);
    let cut = modulo(
        truncated(m, two_to(i64::from(low))),
        two_to(i64::from(part)),
    );
    seen(uext_or(a, n)) == Some((wide, m))
        && seen(sext_or(a, n)) == Some((wide, extended))
        && (low > high || high >= w || seen(slice_or(a, high, low)) == Some((part, cut)))
}

#[test]
fn single_operands(rt: HostRuntime) -> Result<(), Fail> {
    let operators = [
        Op1::Not,
        Op1::Inc,
        Op1::Dec,
        Op1::Neg,
        Op1::Redand,
        Op1::Redor,
        Op1::Redxor,
    ];
    for p in 2..16 {
        let a = small_word(p).ok_or("no word")?;
        let (w, m) = seen(a).ok_or("no small word")?;
        for o in operators {
            assert_eq!(rt;
                seen(op1(o, a)),
                Some(formula_of_one(o, w, m)),
                "{o:?} of {a:?}"
            );
        }
        for high in 0..3 {
            for low in 0..3 {
                assert!(rt; resizes(a, high, high, low), "{a:?} from {high} to {low}");
            }
        }
    }
    Ok(())
}
