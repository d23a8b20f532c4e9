//! The definitions of places, tokens and numbers, computed on small texts.
ghost use Rattle.std.specs.Prelude.{◌≡◌, ◌∷◌, [], Ok, Err, Some, None, codes};
ghost use Rattle.knox_text.specs.Places.{place_behind, start_of};
ghost use Rattle.knox_text.specs.Numbers.{number_at, natural};
ghost use Rattle.knox_text.specs.Lines.{lines};
ghost use Rattle.knox_text.specs.Tokens.{token, tokens, bare_tokens, place_of};
ghost use Rattle.knox_text.specs.Examples.{place, bad_number};

/// The place behind a text: behind a line feed a line begins, and a tab and a carriage return take
/// one column each.
pub fn places_as_expected()
    ensures empty { place_behind (codes "") ≡ place 1 1 }
    ensures one_line { place_behind (codes "ab") ≡ place 1 3 }
    ensures tab { place_behind (codes "a\tb") ≡ place 1 4 }
    ensures line_feed { place_behind (codes "ab\n") ≡ place 2 1 }
    ensures carriage_return { place_behind (codes "ab\r\n\nc") ≡ place 3 2 }
    ensures lone_carriage_return { place_behind (codes "a\rb") ≡ place 1 4 }
{}

/// The lines of a text, the tokens of a line, and where they stand.
pub fn tokens_as_expected()
    ensures lines { lines (codes "a\r\n\nb\rc\r") ≡ codes "a" ∷ [] ∷ codes "b\rc\r" ∷ [] }
    ensures last_line_feed { lines (codes "a\n") ≡ codes "a" ∷ [] }
    ensures no_token { tokens (codes " \t ") ≡ [] }
    ensures two { tokens (codes " ab\tc\r") ≡ token 5 (codes "ab") ∷ token 2 (codes "c\r") ∷ [] }
    ensures bare { bare_tokens (codes " ab\tc\r") ≡ codes "ab" ∷ codes "c\r" ∷ [] }
    ensures first_place { place_of 3 6 5 ≡ place 3 2 }
    ensures second_place { place_of 3 6 2 ≡ place 3 5 }
    ensures end { place_of 3 6 0 ≡ place 3 7 }
{}

/// The number that a text begins with, and the number that a token writes.
pub fn numbers_as_expected()
    ensures zeros { number_at 10 (start_of (codes "0042 ")) ≡ Ok 42 }
    ensures hexadecimal { number_at 16 (start_of (codes "aF)")) ≡ Ok 175 }
    ensures binary { number_at 2 (start_of (codes "1012")) ≡ Ok 5 }
    ensures no_digit { number_at 10 (start_of (codes "x1")) ≡ Err (bad_number 1 1) }
    ensures largest { number_at 10 (start_of (codes "340282366920938463463374607431768211455")) ≡ Ok 340282366920938463463374607431768211455 }
    ensures token { natural (codes "0042") ≡ Some 42 }
    ensures largest_token { natural (codes "18446744073709551615") ≡ Some 18446744073709551615 }
    ensures large_token { natural (codes "99999999999999999999") ≡ Some 18446744073709551616 }
    ensures no_token { natural (codes "") ≡ None }
    ensures letter { natural (codes "4a") ≡ None }
    ensures sign { natural (codes "-4") ≡ None }
    ensures too_large { number_at 10 (start_of (codes "340282366920938463463374607431768211456")) ≡ Err (bad_number 1 39) }
{}
