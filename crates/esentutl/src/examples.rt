//! Worked examples of the words, as theorems: the form that a list of words is of.
#![tactic(auto, unfolding(script_words::specs::Words::number_within, script_words::specs::Words::number_of))]

ghost use Rattle.std.specs.Prelude.{◌≡◌, [], ◌∷◌, codes};
ghost use Rattle.esentutl.specs.declared.words.Form.TheVariants as form;
ghost use Rattle.esentutl.specs.Words.{form_of, form_of_options};

/// The limit of the version store's span that the words behind `ordered` name: the least, the greatest, and where no word
/// names one.
pub fn limits_that_are_named()
    ensures none { form_of (codes "-" ∷ codes "run" ∷ codes "ordered" ∷ []) ≡ form.OrderedRun (record { span_limit = 4194304; depth = 1048576 }) }
    ensures least { form_of (codes "-" ∷ codes "run" ∷ codes "ordered" ∷ codes "versions" ∷ codes "4096" ∷ []) ≡ form.OrderedRun (record { span_limit = 4096; depth = 1048576 }) }
    ensures greatest { form_of_options (codes "versions" ∷ codes "67108864" ∷ []) ≡ form.OrderedRun (record { span_limit = 67108864; depth = 1048576 }) }
{}

/// Words that name no limit: one outside the range, one with a sign or a leading zero, none at all, and one with a word
/// behind it.
pub fn words_that_name_no_limit()
    ensures below { form_of (codes "-" ∷ codes "run" ∷ codes "ordered" ∷ codes "versions" ∷ codes "0" ∷ []) ≡ form.Unknown }
    ensures too_low { form_of_options (codes "versions" ∷ codes "4095" ∷ []) ≡ form.Unknown }
    ensures too_high { form_of_options (codes "versions" ∷ codes "67108865" ∷ []) ≡ form.Unknown }
    ensures led_by_zero { form_of_options (codes "versions" ∷ codes "04096" ∷ []) ≡ form.Unknown }
    ensures signed { form_of_options (codes "versions" ∷ codes "+5000" ∷ []) ≡ form.Unknown }
    ensures no_number { form_of_options (codes "versions" ∷ []) ≡ form.Unknown }
    ensures more { form_of_options (codes "versions" ∷ codes "4096" ∷ codes "4096" ∷ []) ≡ form.Unknown }
{}

/// The depth of the log that the words name, behind a limit or without one: the least and the greatest.
pub fn depths_that_are_named()
    ensures least { form_of (codes "mail" ∷ codes "run" ∷ codes "ordered" ∷ codes "depth" ∷ codes "1" ∷ []) ≡ form.OrderedRun (record { span_limit = 4194304; depth = 1 }) }
    ensures greatest { form_of_options (codes "versions" ∷ codes "4096" ∷ codes "depth" ∷ codes "4194304" ∷ []) ≡ form.OrderedRun (record { span_limit = 4096; depth = 4194304 }) }
    ensures recovery { form_of (codes "mail" ∷ codes "/r" ∷ []) ≡ form.Recovery }
{}

/// Words that name no depth: none, one too great, and one before the limit.
pub fn words_that_name_no_depth()
    ensures none { form_of_options (codes "depth" ∷ codes "0" ∷ []) ≡ form.Unknown }
    ensures too_high { form_of_options (codes "depth" ∷ codes "4194305" ∷ []) ≡ form.Unknown }
    ensures before { form_of_options (codes "depth" ∷ codes "1" ∷ codes "versions" ∷ codes "4096" ∷ []) ≡ form.Unknown }
    ensures no_order { form_of (codes "mail" ∷ codes "run" ∷ []) ≡ form.Unknown }
    ensures more { form_of (codes "mail" ∷ codes "/r" ∷ codes "depth" ∷ []) ≡ form.Unknown }
{}
