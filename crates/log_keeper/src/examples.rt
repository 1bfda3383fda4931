//! Worked examples of where a log ends once bytes are given in blocks. These do nothing: their clauses are the examples.

ghost use Rattle.std.specs.Prelude.{◌≡◌};
ghost use Rattle.log_keeper.specs.Blocks.{given_in};

/// A byte more than two blocks take three, each 21 bytes longer than what it holds. A byte more than 16 full blocks still fits
/// into their generation, and a seventeenth full block goes into the next one.
pub fn blocks_of_a_log()
    ensures nothing { given_in 1 (record { generation = 1; offset = 40; position = 19 }) 0 ≡ record { end = record { generation = 1; offset = 40; position = 19 }; left = 0 } }
    ensures three { given_in 1 (record { generation = 1; offset = 0; position = 0 }) 131001 ≡ record { end = record { generation = 1; offset = 131064; position = 131001 }; left = 0 } }
    ensures same_generation { given_in 1 (record { generation = 1; offset = 0; position = 0 }) 1048001 ≡ record { end = record { generation = 1; offset = 1048358; position = 1048001 }; left = 0 } }
    ensures next_generation { given_in 1 (record { generation = 1; offset = 0; position = 0 }) 1113500 ≡ record { end = record { generation = 2; offset = 65521; position = 1113500 }; left = 0 } }
{}

/// The eight generations from that of the standing checkpoint on have room for 128 full blocks. What comes behind them is left
/// where it does not fit into the eighth, and a front of it may have been given in blocks before.
pub fn no_room_in_the_eighth_generation()
    ensures full { given_in 1 (record { generation = 1; offset = 0; position = 0 }) 8384000 ≡ record { end = record { generation = 8; offset = 1048336; position = 8384000 }; left = 0 } }
    ensures left { given_in 1 (record { generation = 1; offset = 0; position = 0 }) 8384219 ≡ record { end = record { generation = 8; offset = 1048336; position = 8384000 }; left = 219 } }
    ensures some_given { given_in 1 (record { generation = 8; offset = 982815; position = 8318500 }) 131001 ≡ record { end = record { generation = 8; offset = 1048336; position = 8384000 }; left = 65501 } }
{}
