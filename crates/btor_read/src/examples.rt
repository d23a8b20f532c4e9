//! The definitions of what lines say and what texts mean, computed on short texts.
ghost use Rattle.std.specs.Prelude.{◌≡◌, ◌∷◌, [], Ok, Err, codes, pos, negsuc};
ghost use Rattle.circuit_table.specs.declared.fault.Why.TheVariants as why;
ghost use Rattle.circuit_table.specs.declared.line.Shape.TheVariants as shape;
ghost use Rattle.knox_words.specs.declared.op.Op1.TheVariants.{Redand};
ghost use Rattle.knox_words.specs.declared.op.Op2.TheVariants.{Concat};
ghost use Rattle.btor_read.specs.Tokens.{tokens_of};
ghost use Rattle.btor_read.specs.Said.{said};
ghost use Rattle.btor_read.specs.Reading.{lines_or_fault};
ghost use Rattle.btor_read.specs.Examples.{line, first, meaning, faulty};

/// The shape of a line of each form, its number and its symbol.
pub fn forms_as_expected()
    ensures line { said 7 2 (tokens_of (codes "03\tzero 1")) ≡ Ok (line 3 7 (shape.Zero 1) []) }
    ensures symbol { meaning (codes "1 zero 1 a;b ; c d") ≡ Ok (line 1 1 (shape.Zero 1) (codes "a;b")) }
    ensures bitvec { meaning (codes "1 sort bitvec 008") ≡ first (shape.Bitvec 8) }
    ensures array { meaning (codes "1 sort array 2 4294967296") ≡ first (shape.Array 2 0) }
    ensures binary { meaning (codes "1 const 2 01z") ≡ first (shape.Const 2 (codes "01z")) }
    ensures decimal { meaning (codes "1 constd 2 -3") ≡ first (shape.Constd 2 (codes "-3")) }
    ensures hexadecimal { meaning (codes "1 consth 2 fF") ≡ first (shape.Consth 2 (codes "fF")) }
    ensures one { meaning (codes "1 one 2") ≡ first (shape.One 2) }
    ensures ones { meaning (codes "1 ones 2") ≡ first (shape.Ones 2) }
    ensures input { meaning (codes "1 input 2") ≡ first (shape.Input 2) }
    ensures state { meaning (codes "1 state 2") ≡ first (shape.State 2) }
    ensures init { meaning (codes "1 init 2 3 -4") ≡ first (shape.Init 2 (pos 3) (negsuc 3)) }
    ensures next { meaning (codes "1 next 2 3 4") ≡ first (shape.Next 2 (pos 3) (pos 4)) }
    ensures unary { meaning (codes "1 redand 2 -0") ≡ first (shape.Un Redand 2 (pos 0)) }
    ensures binary_operator { meaning (codes "1 concat 2 3 4") ≡ first (shape.Bin Concat 2 (pos 3) (pos 4)) }
    ensures slice { meaning (codes "1 slice 2 3 4 5") ≡ first (shape.Slice 2 (pos 3) 4 5) }
    ensures uext { meaning (codes "1 uext 2 3 4") ≡ first (shape.Uext 2 (pos 3) 4) }
    ensures sext { meaning (codes "1 sext 2 3 99999999999999999999999") ≡ first (shape.Sext 2 (pos 3) 4294967295) }
    ensures ite { meaning (codes "1 ite 2 3 4 5") ≡ first (shape.Ite 2 (pos 3) (pos 4) (pos 5)) }
    ensures read { meaning (codes "1 read 2 3 4") ≡ first (shape.Read 2 (pos 3) (pos 4)) }
    ensures write { meaning (codes "1 write 2 3 4 5") ≡ first (shape.Write 2 (pos 3) (pos 4) (pos 5)) }
    ensures output { meaning (codes "1 output 9223372036854775808") ≡ first (shape.Output (pos 9223372036854775807)) }
    ensures bad { meaning (codes "1 bad -9223372036854775809") ≡ first (shape.Bad (pos 9223372036854775807)) }
    ensures fair { meaning (codes "1 fair -2") ≡ first (shape.Fair (negsuc 1)) }
    ensures justice { meaning (codes "1 justice 2 3 -4") ≡ first (shape.Justice 2 (pos 3 ∷ negsuc 3 ∷ [])) }
{}

/// The first fault of a line by its tokens.
pub fn faults_as_expected()
    ensures too_many { said 1000001 0 (tokens_of (codes "x")) ≡ Err why.TooManyLines }
    ensures no_number { meaning (codes "zero 1") ≡ Err why.Number }
    ensures great_number { meaning (codes "4294967296 constraint 1") ≡ Err why.Number }
    ensures number_zero { meaning (codes "0 zero 1") ≡ Err why.Number }
    ensures same_number { said 2 5 (tokens_of (codes "5 constraint")) ≡ Err why.Order }
    ensures constraint { meaning (codes "1 constraint") ≡ Err why.Constraint }
    ensures overflow { meaning (codes "1 usubo") ≡ Err why.Unsupported }
    ensures no_keyword { meaning (codes "1 ; zero 1") ≡ Err why.Keyword }
    ensures unknown { meaning (codes "1 Zero 1") ≡ Err why.Keyword }
    ensures missing { meaning (codes "1 zero") ≡ Err why.Operand }
    ensures too_much { meaning (codes "1 zero 1 a b") ≡ Err why.Operand }
    ensures no_operand { meaning (codes "1 not 2 -") ≡ Err why.Operand }
    ensures other_sort { meaning (codes "1 sort bits 1") ≡ Err why.Operand }
    ensures justice_zero { meaning (codes "1 justice 0") ≡ Err why.Operand }
    ensures justice_short { meaning (codes "1 justice 2 3") ≡ Err why.Operand }
{}

/// The lines that texts mean, or their first fault with its text line. Lines without tokens are
/// counted and skipped.
pub fn texts_as_expected()
    ensures empty { lines_or_fault (codes ";\n\n ; 1\r\n") ≡ Ok [] }
    ensures four { lines_or_fault (codes "1 sort bitvec 4\r\n2 zero 1 ; 0\n\n4 input 1 a\n5 output 4") ≡ Ok (line 1 1 (shape.Bitvec 4) [] ∷ line 2 2 (shape.Zero 1) [] ∷ line 4 4 (shape.Input 1) (codes "a") ∷ line 5 5 (shape.Output (pos 4)) [] ∷ []) }
    ensures tokens { lines_or_fault (codes "1 sort bitvec 4\n\n2 one\n3 frob") ≡ faulty 3 why.Operand }
    ensures rules { lines_or_fault (codes "1 sort bitvec 4\n;\n2 zero 3\n3 frob") ≡ faulty 3 why.Sort }
    ensures carriage_return { lines_or_fault (codes "1 sort bitvec 4\r\r\n") ≡ faulty 1 why.Operand }
    ensures whole { lines_or_fault (codes "\n1 sort bitvec 4\n2 state 1\n3 output 2\n4 output 2\n") ≡ faulty 4 why.Next }
    ensures whole_last { lines_or_fault (codes "1 sort bitvec 4\n2 state 1\n3 output 2\n4 x") ≡ faulty 4 why.Keyword }
{}
