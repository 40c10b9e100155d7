// What a packet is (RFC 6716, sections 3.2 to 3.4 and appendix B), how it is read off a list of bytes, and that the two agree: no code.
#![tactic(auto)]
