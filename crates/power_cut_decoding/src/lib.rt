// Decoding after a loading (document 02, Card 1): the finished stream's blocks are decoded as they were pushed.
#![tactic(auto)]

ghost use Rattle.power_cut_decoding.specs.DecodesAsPushed.{EachBlockDecoded, NoBlockDecoded, WholeChannelDecoded};

// Once an accepted finish's last write has taken: each block decoded, the end and 6, a whole channel call after call.
pub fn decoded_as_pushed()
    ensures each_block_decoded { EachBlockDecoded }
    ensures no_block_decoded { NoBlockDecoded }
    ensures whole_channel_decoded { WholeChannelDecoded }
{}
