ghost use Rattle.std.specs.Prelude.{◌≡◌, ◌∷◌, [], None, Some, Ok, Err, codes};
ghost use Rattle.py_plain.specs.declared.newlines.Newlines.TheVariants as rule;
ghost use Rattle.py_plain.specs.NewlineArgument.{rule_of};
ghost use Rattle.py_plain.specs.FindNewline.{newline_place};

/// Five arguments stand for a rule, and no other does.
pub fn arguments_stand_for_rules()
    ensures none { rule_of None ≡ Some rule.Universal }
    ensures empty { rule_of (Some []) ≡ Some rule.Passthrough }
    ensures lf { rule_of (Some (codes "\n")) ≡ Some rule.Lf }
    ensures cr { rule_of (Some (codes "\r")) ≡ Some rule.Cr }
    ensures cr_lf { rule_of (Some (codes "\r\n")) ≡ Some rule.Crlf }
    ensures lf_cr { rule_of (Some (codes "\n\r")) ≡ None }
    ensures other { rule_of (Some (codes "a")) ≡ None }
{}

/// The first line ends at another place by each rule, which is told in bytes; a CR that may begin a CR LF is looked at again.
pub fn a_line_end_is_told_by_the_place_behind_it()
    ensures by_universal { newline_place rule.Universal (codes "a\rb\nc") ≡ Ok 4 }
    ensures by_lf { newline_place rule.Lf (codes "a\r\nb") ≡ Ok 3 }
    ensures by_cr { newline_place rule.Cr (codes "a\r\nb") ≡ Ok 2 }
    ensures by_cr_lf { newline_place rule.Crlf (codes "\r\r\n") ≡ Ok 3 }
    ensures by_cr_lf_alone { newline_place rule.Crlf (codes "\na\r\n") ≡ Ok 4 }
    ensures by_any { newline_place rule.Passthrough (codes "a\r\nb") ≡ Ok 3 }
    ensures by_any_alone { newline_place rule.Passthrough (codes "a\rb") ≡ Ok 2 }
    ensures by_any_at_the_end { newline_place rule.Passthrough (codes "a\r") ≡ Ok 2 }
    ensures in_bytes { newline_place rule.Lf (0x20AC ∷ 0x0A ∷ []) ≡ Ok 4 }
    ensures nowhere { newline_place rule.Lf (0x20AC ∷ 0x0D ∷ []) ≡ Err 4 }
    ensures nowhere_but_a_cr { newline_place rule.Crlf (0x20AC ∷ 0x0D ∷ []) ≡ Err 3 }
    ensures nowhere_at_all { newline_place rule.Crlf [] ≡ Err 0 }
{}
