// Document 01's marked cases, computed over the definitions.
#![tactic(auto)]

ghost use Rattle.power_cut_cases.specs.MarkedForTheTable.{MarkedCases};
ghost use Rattle.power_cut_cases.specs.UsedOnLists.{WorkedSlot, StereoSlot, WorkedEstimate, StereoEstimate};

// The marked cases, the worked example, the recorded files and each refusal.
pub fn marked_cases()
    ensures { MarkedCases }
{}

// The finished file and the estimate, taken from their statements: of the worked example and of the recorded stereo file.
pub fn used_on_lists()
    ensures worked_slot { WorkedSlot }
    ensures stereo_slot { StereoSlot }
    ensures worked_estimate { WorkedEstimate }
    ensures stereo_estimate { StereoEstimate }
{}
