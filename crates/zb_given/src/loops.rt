ghost use Rattle.zb_given.specs.Loops.{Finishes, GoesPast, GoesPastPlus, GoesPastSteps, GoesTo, IsFirst, LooksFirst, OtherClients, StepsOther, StepsOwn, StepsPast};

/// A program that gave nothing is between two lines of the script, and nothing fits nothing.
pub fn loop_begins()
    ensures { IsFirst }
{}

/// From between two lines to the next one, by giving it to the world; and past it: at once with a plus, and without one
/// where its client, or its actor, is idle. A step line is past at once. A finish may begin between two lines.
pub fn loop_goes_from_line_to_line()
    ensures next { GoesTo }
    ensures looks { LooksFirst }
    ensures past_plus { GoesPastPlus }
    ensures past { GoesPast }
    ensures past_steps { GoesPastSteps }
    ensures finish { Finishes }
{}

/// Steps keep where a program is: at a call those of its client, if a read of the call was looked up at the last state;
/// those of other clients; and between two lines all.
pub fn steps_keep_the_loop()
    ensures own { StepsOwn }
    ensures other { StepsOther }
    ensures other_clients { OtherClients }
    ensures between { StepsPast }
{}
