ghost use Rattle.std.specs.Prelude.{◌≡◌, ◌∷◌, [], true, false, None, Ok, Err, codes};
ghost use Rattle.py_flat.specs.declared.fault.IoFault.TheVariants.{UnknownEncoding, UnknownHandler};
ghost use Rattle.py_plain.specs.declared.encoding.Encoding.TheVariants as encoding;
ghost use Rattle.py_plain.specs.declared.handler.Handler.TheVariants as handler;
ghost use Rattle.py_plain.specs.declared.newlines.Newlines.TheVariants as rule;
ghost use Rattle.py_registry.specs.Machine.{fresh as fresh_registry};
ghost use Rattle.py_text.specs.Coders.{coder_by};
ghost use Rattle.py_text.specs.NewlinePieces.{fresh, text_with, after_piece, after_pieces};

/// Under the universal rule a CR that ends a piece waits for what follows; the other rules change and hold nothing.
pub fn a_cr_waits_for_what_follows()
    ensures held { text_with (fresh rule.Universal) false (codes "a\r") ≡ codes "a" }
    ensures holds { (after_piece (fresh rule.Universal) false (codes "a\r")).held ≡ true }
    ensures with_its_lf { text_with (after_piece (fresh rule.Universal) false (codes "a\r")) true (codes "\n") ≡ codes "\n" }
    ensures with_no_lf { text_with (after_piece (fresh rule.Universal) false (codes "a\r")) true (codes "b") ≡ codes "\nb" }
    ensures at_the_end { text_with (after_piece (fresh rule.Universal) false (codes "a\r")) true [] ≡ codes "\n" }
    ensures stays { (after_pieces (fresh rule.Universal) (codes "a\r" ∷ [] ∷ [])).held ≡ true }
    ensures passthrough { text_with (fresh rule.Passthrough) false (codes "a\r") ≡ codes "a\r" }
    ensures crlf { text_with (fresh rule.Crlf) false (codes "a\r\nb\r") ≡ codes "a\r\nb\r" }
    ensures whole { text_with (fresh rule.Universal) true (codes "a\r\nb\rc\n\r\r\n") ≡ codes "a\nb\nc\n\n\n" }
    ensures are { codes "\r\n" ≡ 0x0D ∷ 0x0A ∷ [] }
{}

/// The coder of two names in a new registry, where no function finds anything.
pub fn a_coder_has_a_codec_that_is_built_in_and_a_handler_of_its_directions<S, H>()
    ensures strict { coder_by {S = S} {H = H} (λ function name. None) true true fresh_registry (codes "utf-8") (codes "strict")
        ≡ Ok (record { encoding = encoding.Utf8; errors = handler.Strict }) }
    ensures spelled { coder_by {S = S} {H = H} (λ function name. None) true false fresh_registry (codes "UTF 16 LE") (codes "ignore")
        ≡ Ok (record { encoding = encoding.Utf16Le; errors = handler.Ignore }) }
    ensures written { coder_by {S = S} {H = H} (λ function name. None) false true fresh_registry (codes "ascii") (codes "xmlcharrefreplace")
        ≡ Ok (record { encoding = encoding.Ascii; errors = handler.XmlCharRefReplace }) }
    ensures read { coder_by {S = S} {H = H} (λ function name. None) true true fresh_registry (codes "ascii") (codes "xmlcharrefreplace")
        ≡ Err UnknownHandler }
    ensures surrogates { coder_by {S = S} {H = H} (λ function name. None) false true fresh_registry (codes "utf-8") (codes "surrogatepass")
        ≡ Err UnknownHandler }
    ensures no_handler { coder_by {S = S} {H = H} (λ function name. None) true false fresh_registry (codes "utf-8") (codes "Strict")
        ≡ Err UnknownHandler }
    ensures no_codec { coder_by {S = S} {H = H} (λ function name. None) true false fresh_registry (codes "koi8-r") (codes "Strict")
        ≡ Err UnknownEncoding }
{}
