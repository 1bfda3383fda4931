//! Worked examples of when a checkpoint is due. The function does nothing: its clauses are the examples.

ghost use Rattle.std.specs.Prelude.{◌≡◌};
ghost use Rattle.kept_engine.specs.Spans.{span_after};

/// A flush of 100 bytes behind the first checkpoint at a depth of 101 bytes is followed by none; at a depth of 100 another one follows,
/// behind which no byte stands. Where the last of the eight generations has no room for 219 bytes a checkpoint takes their place, at
/// whatever depth.
pub fn checkpoints_that_are_due()
    ensures none { span_after 101 (record { number = 1; start = record { generation = 1; offset = 0; position = 0 }; end = record { generation = 1; offset = 0; position = 0 } }) 100
        ≡ record { number = 1; start = record { generation = 1; offset = 0; position = 0 }; end = record { generation = 1; offset = 121; position = 100 } } }
    ensures follows { span_after 100 (record { number = 1; start = record { generation = 1; offset = 0; position = 0 }; end = record { generation = 1; offset = 0; position = 0 } }) 100
        ≡ record { number = 2; start = record { generation = 1; offset = 121; position = 100 }; end = record { generation = 1; offset = 121; position = 100 } } }
    ensures in_place { span_after 16777216 (record { number = 1; start = record { generation = 1; offset = 0; position = 0 }; end = record { generation = 8; offset = 1048336; position = 8384000 } }) 219
        ≡ record { number = 2; start = record { generation = 8; offset = 1048336; position = 8384000 }; end = record { generation = 8; offset = 1048336; position = 8384000 } } }
{}
