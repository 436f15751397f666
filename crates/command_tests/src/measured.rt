/// A network with measured traffic, as SNDlib has such files: 132 demands of six decimals. bench/reading/matrix.py wrote it.
pub(crate) const MEASURED: &[u8] = b"?SNDlib native format; type: network; version: 1.0
# measured traffic
NODES (
  Bern
  Bonn
  Brest
  Gent
  Graz
  Jena
  Kiel
  Lyon
  Nice
  Pisa
  Turin
  Ulm
)
LINKS (
  Bern_Lyon ( Bern Lyon ) 0.00 0.00 0.00 0.00 ( 155.00 750.00 622.00 1875.00 )
  Bern_Ulm ( Bern Ulm ) 0.00 0.00 0.00 0.00 ( 155.00 325.00 622.00 812.50 )
  Bern_Turin ( Bern Turin ) 0.00 0.00 0.00 0.00 ( 155.00 750.00 622.00 1875.00 )
  Bonn_Gent ( Bonn Gent ) 0.00 0.00 0.00 0.00 ( 155.00 175.00 622.00 437.50 )
  Bonn_Jena ( Bonn Jena ) 0.00 0.00 0.00 0.00 ( 155.00 350.00 622.00 875.00 )
  Bonn_Ulm ( Bonn Ulm ) 0.00 0.00 0.00 0.00 ( 155.00 150.00 622.00 375.00 )
  Brest_Gent ( Brest Gent ) 0.00 0.00 0.00 0.00 ( 155.00 575.00 622.00 1437.50 )
  Brest_Lyon ( Brest Lyon ) 0.00 0.00 0.00 0.00 ( 155.00 275.00 622.00 687.50 )
  Gent_Kiel ( Gent Kiel ) 0.00 0.00 0.00 0.00 ( 155.00 950.00 622.00 2375.00 )
  Graz_Jena ( Graz Jena ) 0.00 0.00 0.00 0.00 ( 155.00 125.00 622.00 312.50 )
  Graz_Pisa ( Graz Pisa ) 0.00 0.00 0.00 0.00 ( 155.00 475.00 622.00 1187.50 )
  Jena_Kiel ( Jena Kiel ) 0.00 0.00 0.00 0.00 ( 155.00 800.00 622.00 2000.00 )
  Lyon_Nice ( Lyon Nice ) 0.00 0.00 0.00 0.00 ( 155.00 500.00 622.00 1250.00 )
  Nice_Pisa ( Nice Pisa ) 0.00 0.00 0.00 0.00 ( 155.00 400.00 622.00 1000.00 )
  Pisa_Turin ( Pisa Turin ) 0.00 0.00 0.00 0.00 ( 155.00 800.00 622.00 2000.00 )
)
DEMANDS (
  Bern_Bonn ( Bern Bonn ) 1 7.812579 UNLIMITED
  Bern_Brest ( Bern Brest ) 1 1.728989 UNLIMITED
  Bern_Gent ( Bern Gent ) 1 18.084169 UNLIMITED
  Bern_Graz ( Bern Graz ) 1 14.125592 UNLIMITED
  Bern_Jena ( Bern Jena ) 1 1.517284 UNLIMITED
  Bern_Kiel ( Bern Kiel ) 1 10.868256 UNLIMITED
  Bern_Lyon ( Bern Lyon ) 1 5.705562 UNLIMITED
  Bern_Nice ( Bern Nice ) 1 4.870553 UNLIMITED
  Bern_Pisa ( Bern Pisa ) 1 7.406869 UNLIMITED
  Bern_Turin ( Bern Turin ) 1 7.252947 UNLIMITED
  Bern_Ulm ( Bern Ulm ) 1 5.821876 UNLIMITED
  Bonn_Bern ( Bonn Bern ) 1 10.536660 UNLIMITED
  Bonn_Brest ( Bonn Brest ) 1 1.581140 UNLIMITED
  Bonn_Gent ( Bonn Gent ) 1 1.087181 UNLIMITED
  Bonn_Graz ( Bonn Graz ) 1 5.762994 UNLIMITED
  Bonn_Jena ( Bonn Jena ) 1 8.274570 UNLIMITED
  Bonn_Kiel ( Bonn Kiel ) 1 2.580313 UNLIMITED
  Bonn_Lyon ( Bonn Lyon ) 1 0.834591 UNLIMITED
  Bonn_Nice ( Bonn Nice ) 1 9.261892 UNLIMITED
  Bonn_Pisa ( Bonn Pisa ) 1 24.094921 UNLIMITED
  Bonn_Turin ( Bonn Turin ) 1 26.081444 UNLIMITED
  Bonn_Ulm ( Bonn Ulm ) 1 8.593405 UNLIMITED
  Brest_Bern ( Brest Bern ) 1 7.383135 UNLIMITED
  Brest_Bonn ( Brest Bonn ) 1 8.552556 UNLIMITED
  Brest_Gent ( Brest Gent ) 1 9.792605 UNLIMITED
  Brest_Graz ( Brest Graz ) 1 0.785074 UNLIMITED
  Brest_Jena ( Brest Jena ) 1 5.181663 UNLIMITED
  Brest_Kiel ( Brest Kiel ) 1 6.427427 UNLIMITED
  Brest_Lyon ( Brest Lyon ) 1 1.197836 UNLIMITED
  Brest_Nice ( Brest Nice ) 1 4.660016 UNLIMITED
  Brest_Pisa ( Brest Pisa ) 1 8.143719 UNLIMITED
  Brest_Turin ( Brest Turin ) 1 1.094362 UNLIMITED
  Brest_Ulm ( Brest Ulm ) 1 3.254710 UNLIMITED
  Gent_Bern ( Gent Bern ) 1 8.623608 UNLIMITED
  Gent_Bonn ( Gent Bonn ) 1 7.902620 UNLIMITED
  Gent_Brest ( Gent Brest ) 1 11.909883 UNLIMITED
  Gent_Graz ( Gent Graz ) 1 3.405619 UNLIMITED
  Gent_Jena ( Gent Jena ) 1 4.978329 UNLIMITED
  Gent_Kiel ( Gent Kiel ) 1 33.501561 UNLIMITED
  Gent_Lyon ( Gent Lyon ) 1 32.288659 UNLIMITED
  Gent_Nice ( Gent Nice ) 1 1.892786 UNLIMITED
  Gent_Pisa ( Gent Pisa ) 1 13.973609 UNLIMITED
  Gent_Turin ( Gent Turin ) 1 30.094883 UNLIMITED
  Gent_Ulm ( Gent Ulm ) 1 23.420972 UNLIMITED
  Graz_Bern ( Graz Bern ) 1 8.784528 UNLIMITED
  Graz_Bonn ( Graz Bonn ) 1 27.302897 UNLIMITED
  Graz_Brest ( Graz Brest ) 1 6.042185 UNLIMITED
  Graz_Gent ( Graz Gent ) 1 18.979832 UNLIMITED
  Graz_Jena ( Graz Jena ) 1 7.383184 UNLIMITED
  Graz_Kiel ( Graz Kiel ) 1 18.705524 UNLIMITED
  Graz_Lyon ( Graz Lyon ) 1 34.562239 UNLIMITED
  Graz_Nice ( Graz Nice ) 1 34.870388 UNLIMITED
  Graz_Pisa ( Graz Pisa ) 1 21.304492 UNLIMITED
  Graz_Turin ( Graz Turin ) 1 25.816420 UNLIMITED
  Graz_Ulm ( Graz Ulm ) 1 2.156380 UNLIMITED
  Jena_Bern ( Jena Bern ) 1 16.485989 UNLIMITED
  Jena_Bonn ( Jena Bonn ) 1 9.082745 UNLIMITED
  Jena_Brest ( Jena Brest ) 1 27.238419 UNLIMITED
  Jena_Gent ( Jena Gent ) 1 1.625854 UNLIMITED
  Jena_Graz ( Jena Graz ) 1 21.758560 UNLIMITED
  Jena_Kiel ( Jena Kiel ) 1 17.626404 UNLIMITED
  Jena_Lyon ( Jena Lyon ) 1 91.091185 UNLIMITED
  Jena_Nice ( Jena Nice ) 1 28.657486 UNLIMITED
  Jena_Pisa ( Jena Pisa ) 1 12.289605 UNLIMITED
  Jena_Turin ( Jena Turin ) 1 32.543337 UNLIMITED
  Jena_Ulm ( Jena Ulm ) 1 12.309229 UNLIMITED
  Kiel_Bern ( Kiel Bern ) 1 20.334922 UNLIMITED
  Kiel_Bonn ( Kiel Bonn ) 1 3.381768 UNLIMITED
  Kiel_Brest ( Kiel Brest ) 1 35.725132 UNLIMITED
  Kiel_Gent ( Kiel Gent ) 1 52.973469 UNLIMITED
  Kiel_Graz ( Kiel Graz ) 1 8.173976 UNLIMITED
  Kiel_Jena ( Kiel Jena ) 1 33.407703 UNLIMITED
  Kiel_Lyon ( Kiel Lyon ) 1 46.799871 UNLIMITED
  Kiel_Nice ( Kiel Nice ) 1 23.759238 UNLIMITED
  Kiel_Pisa ( Kiel Pisa ) 1 43.454202 UNLIMITED
  Kiel_Turin ( Kiel Turin ) 1 18.591104 UNLIMITED
  Kiel_Ulm ( Kiel Ulm ) 1 12.549295 UNLIMITED
  Lyon_Bern ( Lyon Bern ) 1 24.409429 UNLIMITED
  Lyon_Bonn ( Lyon Bonn ) 1 13.516666 UNLIMITED
  Lyon_Brest ( Lyon Brest ) 1 13.728551 UNLIMITED
  Lyon_Gent ( Lyon Gent ) 1 39.065848 UNLIMITED
  Lyon_Graz ( Lyon Graz ) 1 2.508274 UNLIMITED
  Lyon_Jena ( Lyon Jena ) 1 8.045175 UNLIMITED
  Lyon_Kiel ( Lyon Kiel ) 1 28.467147 UNLIMITED
  Lyon_Nice ( Lyon Nice ) 1 7.836185 UNLIMITED
  Lyon_Pisa ( Lyon Pisa ) 1 29.898315 UNLIMITED
  Lyon_Turin ( Lyon Turin ) 1 18.550515 UNLIMITED
  Lyon_Ulm ( Lyon Ulm ) 1 53.035758 UNLIMITED
  Nice_Bern ( Nice Bern ) 1 3.493096 UNLIMITED
  Nice_Bonn ( Nice Bonn ) 1 3.339324 UNLIMITED
  Nice_Brest ( Nice Brest ) 1 11.199317 UNLIMITED
  Nice_Gent ( Nice Gent ) 1 1.819028 UNLIMITED
  Nice_Graz ( Nice Graz ) 1 23.120272 UNLIMITED
  Nice_Jena ( Nice Jena ) 1 8.996390 UNLIMITED
  Nice_Kiel ( Nice Kiel ) 1 7.040272 UNLIMITED
  Nice_Lyon ( Nice Lyon ) 1 3.530665 UNLIMITED
  Nice_Pisa ( Nice Pisa ) 1 8.533717 UNLIMITED
  Nice_Turin ( Nice Turin ) 1 22.841835 UNLIMITED
  Nice_Ulm ( Nice Ulm ) 1 19.570637 UNLIMITED
  Pisa_Bern ( Pisa Bern ) 1 8.695152 UNLIMITED
  Pisa_Bonn ( Pisa Bonn ) 1 7.483355 UNLIMITED
  Pisa_Brest ( Pisa Brest ) 1 10.605365 UNLIMITED
  Pisa_Gent ( Pisa Gent ) 1 11.302092 UNLIMITED
  Pisa_Graz ( Pisa Graz ) 1 0.317339 UNLIMITED
  Pisa_Jena ( Pisa Jena ) 1 10.144452 UNLIMITED
  Pisa_Kiel ( Pisa Kiel ) 1 19.413334 UNLIMITED
  Pisa_Lyon ( Pisa Lyon ) 1 1.475775 UNLIMITED
  Pisa_Nice ( Pisa Nice ) 1 1.739034 UNLIMITED
  Pisa_Turin ( Pisa Turin ) 1 53.224979 UNLIMITED
  Pisa_Ulm ( Pisa Ulm ) 1 16.581638 UNLIMITED
  Turin_Bern ( Turin Bern ) 1 2.439635 UNLIMITED
  Turin_Bonn ( Turin Bonn ) 1 4.917550 UNLIMITED
  Turin_Brest ( Turin Brest ) 1 29.785199 UNLIMITED
  Turin_Gent ( Turin Gent ) 1 21.043616 UNLIMITED
  Turin_Graz ( Turin Graz ) 1 13.790660 UNLIMITED
  Turin_Jena ( Turin Jena ) 1 27.185598 UNLIMITED
  Turin_Kiel ( Turin Kiel ) 1 54.112401 UNLIMITED
  Turin_Lyon ( Turin Lyon ) 1 1.165168 UNLIMITED
  Turin_Nice ( Turin Nice ) 1 3.263659 UNLIMITED
  Turin_Pisa ( Turin Pisa ) 1 1.996783 UNLIMITED
  Turin_Ulm ( Turin Ulm ) 1 38.286945 UNLIMITED
  Ulm_Bern ( Ulm Bern ) 1 0.314919 UNLIMITED
  Ulm_Bonn ( Ulm Bonn ) 1 0.798003 UNLIMITED
  Ulm_Brest ( Ulm Brest ) 1 26.987296 UNLIMITED
  Ulm_Gent ( Ulm Gent ) 1 3.798082 UNLIMITED
  Ulm_Graz ( Ulm Graz ) 1 0.423494 UNLIMITED
  Ulm_Jena ( Ulm Jena ) 1 87.152662 UNLIMITED
  Ulm_Kiel ( Ulm Kiel ) 1 24.285438 UNLIMITED
  Ulm_Lyon ( Ulm Lyon ) 1 9.844471 UNLIMITED
  Ulm_Nice ( Ulm Nice ) 1 27.066137 UNLIMITED
  Ulm_Pisa ( Ulm Pisa ) 1 31.051541 UNLIMITED
  Ulm_Turin ( Ulm Turin ) 1 0.517296 UNLIMITED
)
";
