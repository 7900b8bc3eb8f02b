// How short a window may be (document 02, wish 7), from below, of sessions and of polls: lists of calls in which two turns commit different
// values, or one answer is committed and another carries another value. There is no code here.
#![tactic(auto)]
