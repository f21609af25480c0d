// Settled examples of the rules, which their definitions meet.
ghost use Rattle.rules.specs.Examples.{Examples};

pub fn examples_stand()
    ensures { Examples }
{}
