// Zigzag varints: definitions and laws. A record batch of one record has the same few of them always, so none is computed at run time.
#![tactic(auto)]
