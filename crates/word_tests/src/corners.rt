//! Corner values of the operators, which widths they take, and lists of words.
//!
//! Rows are worked by hand from BTOR2 and SMT-LIB's theory FixedSizeBitVectors. A word of width w
//! is called `min` for 2 ^ (w - 1), the least number with a sign, `max` for the greatest, and `all`
//! for all ones, which is minus one.
use knox_words::{
    Op1, Op2, Word, Words, extended, fits, fits2, ite, ite_typed, merge_words, op1, op2, op2_or,
    op2_typed, pick, pick_words, sext, sext_or, slice, slice_or, slice_typed, uext, uext_or,
    word_far, word_or, zero,
};
use std::test::Fail;

const WIDTHS: [u8; 8] = [1, 2, 4, 63, 64, 65, 127, 128];

/// The number of an operator's value at one width, or `None` where it doesn't take the words.
fn value(o: Op2, width: u8, a: u128, b: u128) -> Option<u128> {
    let a = Word::new(width, a)?;
    let b = Word::new(width, b)?;
    if fits2(o, width, width) {
        Some(op2(o, a, b).value())
    } else {
        None
    }
}

/// An operator, its operands, and the number of its value.
type Row = (Op2, u128, u128, u128);

/// The operator and operands of the first row whose value at this width isn't the row's.
fn first_other(width: u8, rows: &[Row]) -> Option<(Op2, u128, u128)> {
    for &(o, a, b, n) in rows {
        if value(o, width, a, b) != Some(n) {
            return Some((o, a, b));
        }
    }
    None
}

#[test]
fn division(rt: HostRuntime) {
    for width in WIDTHS {
        let all = u128::MAX >> (128 - width);
        let min = 1u128 << (width - 1);
        let max = all - min;
        let rows = [
            // SMT-LIB: bvudiv by zero is all ones, bvurem by zero the dividend.
            (Op2::Udiv, all, 0, all),
            (Op2::Udiv, 0, 0, all),
            (Op2::Urem, all, 0, all),
            (Op2::Urem, min, 0, min),
            // bvsdiv goes back to bvudiv of the distances: by zero minus all ones, which is 1, for a
            // negative dividend, and else all ones.
            (Op2::Sdiv, min, 0, 1),
            (Op2::Sdiv, all, 0, 1),
            (Op2::Sdiv, max, 0, all),
            (Op2::Sdiv, 0, 0, all),
            // bvsrem and bvsmod by zero are the dividend, of either sign.
            (Op2::Srem, min, 0, min),
            (Op2::Srem, max, 0, max),
            (Op2::Smod, min, 0, min),
            (Op2::Smod, max, 0, max),
            // The minimum by minus one: 2 ^ (w - 1), which is the minimum again. Nothing is left.
            (Op2::Sdiv, min, all, min),
            (Op2::Srem, min, all, 0),
            (Op2::Smod, min, all, 0),
            // The minimum by itself.
            (Op2::Sdiv, min, min, 1),
            (Op2::Srem, min, min, 0),
            (Op2::Smod, min, min, 0),
            // The maximum by the minimum: nearer to zero, so 0, and all is left; rounded down minus
            // one, and minus one is left. At width 1 the maximum is 0.
            (Op2::Sdiv, max, min, 0),
            (Op2::Srem, max, min, max),
            (Op2::Smod, max, min, if width == 1 { 0 } else { all }),
            // Without signs.
            (Op2::Udiv, all, all, 1),
            (Op2::Urem, all, min, max),
        ];
        assert_eq!(rt; first_other(width, &rows), None, "at {width}");
    }
}

#[test]
fn signs(rt: HostRuntime) {
    for width in [4, 63, 64, 65, 127, 128] {
        let all = u128::MAX >> (128 - width);
        let (minus2, minus3, minus6, minus7) = (all - 1, all - 2, all - 5, all - 6);
        let rows = [
            // 7 and 3 with each sign. Towards zero the quotient is 2 or -2, and the remainder has the
            // dividend's sign; rounded down the quotient of unlike signs is -3, and the remainder has
            // the divisor's sign.
            (Op2::Sdiv, 7, 3, 2),
            (Op2::Sdiv, minus7, 3, minus2),
            (Op2::Sdiv, 7, minus3, minus2),
            (Op2::Sdiv, minus7, minus3, 2),
            (Op2::Srem, 7, 3, 1),
            (Op2::Srem, minus7, 3, all),
            (Op2::Srem, 7, minus3, 1),
            (Op2::Srem, minus7, minus3, all),
            (Op2::Smod, 7, 3, 1),
            (Op2::Smod, minus7, 3, 2),
            (Op2::Smod, 7, minus3, minus2),
            (Op2::Smod, minus7, minus3, all),
            // 6 by 3: nothing is left, with any sign.
            (Op2::Srem, minus6, 3, 0),
            (Op2::Smod, minus6, 3, 0),
            (Op2::Smod, 6, minus3, 0),
            // Comparisons with and without signs: minus three is above seven without.
            (Op2::Sgt, 7, minus3, 1),
            (Op2::Sgt, minus3, 7, 0),
            (Op2::Ugt, minus3, 7, 1),
            (Op2::Slt, minus7, minus3, 1),
            (Op2::Slte, 7, minus7, 0),
            (Op2::Sgte, 7, 7, 1),
            // Products of signs: -7 · -3 = 21, and -6 · 3 = -18, modulo 2 ^ w.
            (Op2::Mul, minus7, minus3, 21 & all),
            (Op2::Mul, minus6, 3, all.wrapping_sub(17) & all),
            (Op2::Sub, 3, 7, all - 3),
            (Op2::Add, minus3, 3, 0),
        ];
        assert_eq!(rt; first_other(width, &rows), None, "at {width}");
    }
}

#[test]
fn zero_divisors(rt: HostRuntime) {
    // 128 bits: 2 ^ 127 stands for the minimum, and 2 ^ 128 - 1 for minus one.
    let min = 170_141_183_460_469_231_731_687_303_715_884_105_728;
    assert_eq!(rt; value(Op2::Sdiv, 128, min, u128::MAX), Some(min));
    // Four bits, every dividend: from 8 on it is negative.
    for x in 0..16u8 {
        let x = u128::from(x);
        let quotient = if x < 8 { 15 } else { 1 };
        assert_eq!(rt; value(Op2::Sdiv, 4, x, 0), Some(quotient), "of {x}");
        assert_eq!(rt; value(Op2::Srem, 4, x, 0), Some(x), "of {x}");
        assert_eq!(rt; value(Op2::Smod, 4, x, 0), Some(x), "of {x}");
    }
}

#[test]
fn shifts(rt: HostRuntime) {
    for width in WIDTHS {
        let all = u128::MAX >> (128 - width);
        let min = 1u128 << (width - 1);
        let max = all - min;
        let w = u128::from(width);
        let last = w - 1;
        // One more than the width, which has no word at width 1.
        let past = if width == 1 { 1 } else { w + 1 };
        let rows = [
            // The lowest bit goes to the highest place, and from the width on nothing is left.
            (Op2::Sll, all, 0, all),
            (Op2::Sll, 1, last, min),
            (Op2::Sll, all, w, 0),
            (Op2::Sll, all, past, 0),
            (Op2::Sll, all, all, 0),
            (Op2::Srl, min, last, 1),
            (Op2::Srl, all, w, 0),
            (Op2::Srl, all, past, 0),
            (Op2::Srl, all, all, 0),
            // The highest bit fills what comes in: minus one or zero in the end.
            (Op2::Sra, min, last, all),
            (Op2::Sra, min, w, all),
            (Op2::Sra, min, past, all),
            (Op2::Sra, min, all, all),
            (Op2::Sra, max, last, 0),
            (Op2::Sra, max, w, 0),
            (Op2::Sra, max, all, 0),
            // A rotation by the width is none, and by one more it is by one.
            (Op2::Rol, min, 0, min),
            (Op2::Rol, min, w, min),
            (Op2::Rol, min, past, 1),
            (Op2::Rol, 1, last, min),
            (Op2::Rol, max, 1, all - 1),
            (Op2::Ror, max, 0, max),
            (Op2::Ror, min, w, min),
            (Op2::Ror, 1, 1, min),
            (Op2::Ror, 1, past, min),
            (Op2::Ror, min, last, 1),
        ];
        assert_eq!(rt; first_other(width, &rows), None, "at {width}");
    }
}

#[test]
fn sums_logic_and_order(rt: HostRuntime) {
    for width in WIDTHS {
        let all = u128::MAX >> (128 - width);
        let min = 1u128 << (width - 1);
        let max = all - min;
        let rows = [
            // Modulo 2 ^ w: minus one and one, twice the minimum, minus one times minus one.
            (Op2::Add, all, 1, 0),
            (Op2::Add, min, min, 0),
            (Op2::Sub, 0, 1, all),
            (Op2::Sub, min, all, if width == 1 { 0 } else { min + 1 }),
            (Op2::Mul, all, all, 1),
            (Op2::Mul, all, min, min),
            // Bit by bit: `min` has the highest bit alone, `max` all others.
            (Op2::And, all, min, min),
            (Op2::Or, max, min, all),
            (Op2::Xor, all, min, max),
            (Op2::Nand, all, min, max),
            (Op2::Nor, max, min, 0),
            (Op2::Xnor, max, min, 0),
            (Op2::Xnor, all, all, all),
            // Without signs `min` is above `max`, with signs below it; `all` is below zero.
            (Op2::Eq, all, all, 1),
            (Op2::Neq, all, max, 1),
            (Op2::Ult, max, min, 1),
            (Op2::Ulte, all, 0, 0),
            (Op2::Ugt, min, max, 1),
            (Op2::Ugte, min, min, 1),
            (Op2::Slt, min, max, 1),
            (Op2::Slte, all, 0, 1),
            (Op2::Sgt, min, max, 0),
            (Op2::Sgte, max, min, 1),
        ];
        assert_eq!(rt; first_other(width, &rows), None, "at {width}");
    }
}

#[test]
fn single_operands(rt: HostRuntime) {
    for width in WIDTHS {
        let all = u128::MAX >> (128 - width);
        let min = 1u128 << (width - 1);
        let max = all - min;
        let a = word_or(width, min);
        let rows = [
            // The minimum has one bit, and is its own negative.
            (Op1::Not, width, max),
            (Op1::Inc, width, if width == 1 { 0 } else { min + 1 }),
            (Op1::Dec, width, max),
            (Op1::Neg, width, min),
            (Op1::Redand, 1, u128::from(width == 1)),
            (Op1::Redor, 1, 1),
            (Op1::Redxor, 1, 1),
        ];
        for (o, w, n) in rows {
            assert!(rt; Word::new(w, n) == Some(op1(o, a)), "{o:?} at {width}");
        }
    }
}

/// What a row is about, the word that is given, and the word that is wanted.
type Given<'a> = (&'a str, Option<Word>, Option<Word>);

/// What the first row is about whose word isn't the one that is wanted.
fn first_unlike<'a>(rows: &[Given<'a>]) -> Option<&'a str> {
    for &(what, given, wanted) in rows {
        if given != wanted {
            return Some(what);
        }
    }
    None
}

#[test]
fn widths(rt: HostRuntime) {
    let most = u128::MAX >> 1;
    // A word has 1 to 128 bits, and no more bits than its width.
    let rows = [
        ("no bits", Word::new(0, 0), None),
        ("129 bits", Word::new(129, 0), None),
        ("a number past its width", Word::new(4, 16), None),
        ("127 bits", Word::new(127, most), Some(word_or(127, most))),
        ("the zero of word_or", Some(word_or(4, 16)), Some(zero())),
    ];
    assert_eq!(rt; first_unlike(&rows), None);
}

#[test]
fn operands_fit(rt: HostRuntime) {
    // `iff` and `implies` take bits, `concat` at most 128 bits together, the others one width.
    assert!(rt; fits2(Op2::Iff, 1, 1) && !fits2(Op2::Iff, 2, 2) && !fits2(Op2::Implies, 1, 2));
    assert!(rt; fits2(Op2::Concat, 100, 28) && !fits2(Op2::Concat, 100, 29));
    assert!(rt; fits2(Op2::Sll, 128, 128) && !fits2(Op2::Sll, 128, 8));
}

#[test]
fn resizing(rt: HostRuntime) -> Result<(), Fail> {
    let byte = Word::new(8, 0x96).ok_or("no word")?;
    let bit = Word::new(1, 1).ok_or("no word")?;
    let rows = [
        // 1001 0110: the bits 6 to 2 are 00101.
        ("slice", Some(slice(byte, 6, 2)), Word::new(5, 0b00101)),
        (
            "slice_or past the end",
            Some(slice_or(byte, 8, 0)),
            Some(zero()),
        ),
        ("uext", Some(uext(byte, 120)), Word::new(128, 0x96)),
        ("sext", Some(sext(byte, 8)), Word::new(16, 0xff96)),
        (
            "sext of a bit",
            Some(sext(bit, 127)),
            Word::new(128, u128::MAX),
        ),
        (
            "sext_or past 128 bits",
            Some(sext_or(byte, 121)),
            Some(zero()),
        ),
        (
            "uext_or past 128 bits",
            Some(uext_or(byte, 121)),
            Some(zero()),
        ),
    ];
    assert_eq!(rt; first_unlike(&rows), None);
    Ok(())
}

#[test]
fn two_widths(rt: HostRuntime) -> Result<(), Fail> {
    let byte = Word::new(8, 0x96).ok_or("no word")?;
    let bit = Word::new(1, 1).ok_or("no word")?;
    let wide = uext(bit, 7);
    let rows = [
        (
            "concat",
            Some(op2_or(Op2::Concat, bit, byte)),
            Word::new(9, 0x196),
        ),
        (
            "add of two widths",
            Some(op2_or(Op2::Add, bit, byte)),
            Some(zero()),
        ),
        ("ite of one", Some(ite(bit, byte, wide)), Some(byte)),
        ("ite of zero", Some(ite(zero(), byte, wide)), Some(wide)),
    ];
    assert_eq!(rt; first_unlike(&rows), None);
    Ok(())
}

#[test]
fn lists(rt: HostRuntime) -> Result<(), Fail> {
    let bit = Word::new(1, 1).ok_or("no word")?;
    let mut words = Words::zeros_or(rt.alloc(), &[1, 8])?;
    assert!(rt; fits(&[1, 8], words.as_slice()) && !fits(&[1, 9], words.as_slice()));
    assert!(rt; !fits(&[1], words.as_slice()) && !fits(&[1, 8, 1], words.as_slice()));
    let copy = words.copy(rt.alloc())?;
    words.put_far(0, 0, bit);
    assert!(rt; words != copy);
    assert_eq!(rt; word_far(words.as_slice(), 0, 1 << 100), zero());
    words.extend(copy.as_slice())?;
    assert_eq!(rt; words.len(), 4);
    words.copy_from(copy.as_slice())?;
    assert!(rt; words == copy);
    words.push(bit)?;
    assert_eq!(rt; words.pop(), Some(bit));
    words.clear();
    assert!(rt; words.is_empty());
    Ok(())
}

#[test]
fn typing(rt: HostRuntime) {
    let rows = [
        ("concat", op2_typed(Op2::Concat, 100, 28), Some(128)),
        ("ult", op2_typed(Op2::Ult, 8, 8), Some(1)),
        ("add of two widths", op2_typed(Op2::Add, 8, 9), None),
        ("slice", slice_typed(8, 6, 2), Some(5)),
        ("slice past the end", slice_typed(8, 8, 0), None),
        ("extended", extended(8, u32::MAX), None),
        ("ite", ite_typed(1, 8, 8), Some(8)),
    ];
    for (what, given, wanted) in rows {
        assert!(rt; given == wanted, "{what}");
    }
}

#[test]
fn masks(rt: HostRuntime) -> Result<(), Fail> {
    let mask = [true, false, true];
    let widths = pick(rt.alloc(), &mask, &[1u8, 2, 3, 4])?;
    assert_eq!(rt; widths.as_slice(), [1u8, 3].as_slice());
    let known = [None, Some(zero()), Some(word_or(4, 9))];
    let known = pick(rt.alloc(), &mask, &known)?;
    assert_eq!(rt; known.as_slice(), [None, Some(word_or(4, 9))].as_slice());
    let base = [word_or(4, 1), word_or(4, 2), word_or(4, 3), word_or(4, 4)];
    let mut taken = Words::zeros_or(rt.alloc(), &[1])?;
    pick_words(&mask, &base, &mut taken)?;
    assert_eq!(rt; taken.as_slice(), [word_or(4, 1), word_or(4, 3)].as_slice());
    let others = [word_or(4, 7)];
    merge_words(&mask, &base, &others, &mut taken)?;
    let merged = [word_or(4, 7), word_or(4, 2), word_or(4, 3), word_or(4, 4)];
    assert_eq!(rt; taken.as_slice(), merged.as_slice());
    Ok(())
}
