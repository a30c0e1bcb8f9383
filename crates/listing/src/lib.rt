// The listing of an image: its definition (specs/), that loading it gives the image, and which images some text yields (proofs/). No code yet.
#![tactic(auto)]
