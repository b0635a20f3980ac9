// The worked numbers of document 01 and of requests W-201, W-203 and W-204, proved: specs/Table.antt. There is nothing to run here.
#![tactic(auto)]
