// What is proved of the definitions: the law of a raise, and the worked examples of the tally bank.

ghost use Rattle.bank.specs.Bank.{RaisesByRule};
ghost use Rattle.bank.specs.Examples.{Examples};

/// A raise of any bank goes by the rule: there is nothing to run.
pub fn raises_by_the_rule()
    ensures hold { RaisesByRule }
{}

/// The worked examples hold: there is nothing to run.
pub fn worked_examples_hold()
    ensures hold { Examples }
{}
