// The power cut, said of scripts: what `cut` lists at a moment is a slot of which the theorem says what opens.
#![tactic(auto)]

ghost use Rattle.power_cut_script.specs.ScriptCut.{ScriptCut};

pub fn script_cut()
    ensures { ScriptCut }
{}
