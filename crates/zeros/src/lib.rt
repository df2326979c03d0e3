// What a lent buffer holds behind what a call gives: a definition and its law. The calls clear with std's `fill`.

#![tactic(auto)]
