// The text of frames, as definitions and theorems: the one text of each frame, which pieces may follow one another,
// and that reading along them finds the frame, or the place where no frame's text goes on.
#![tactic(auto)]
